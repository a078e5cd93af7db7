// The rule that tells a directory which words sent home are the line's last commit: the tag and the sender decide.
#![tactic(auto)]

ghost use Rattle.std.specs.Prelude.{◌≡◌, ◌<◌, ◌↔◌, option_map};
ghost use Rattle.rules_maps.specs.Judge.{judge as verdict};
ghost use Rattle.write_back.specs.Take.{verdict_of};

use tcc_base::{CoreId, Tid};

/// What a directory does with words that an owner sends home.
#[derive(Clone, Copy, Debug, PartialEq, Eq)]
pub enum Take {
    /// They become the home words.
    Take,
    /// They are of an earlier commit, or came already: nothing is done.
    Drop,
    /// They are of a commit that this directory hasn't heard of yet: the message stays.
    Wait,
}

#[tactic(auto, unfolding(rules_maps::specs::Judge::judge))]
/// Judges words with this tag that came home from a core, for a line with this owner and this tag (the TID of its last commit, or 0).
/// Words of a later commit wait; words of the last commit that its owner sends are taken; all others are dropped. This is how
/// tags on write-backs make up for links that overtake one another (Chafi et al., "A Scalable, Non-blocking Approach to
/// Transactional Memory", HPCA 2007). It takes constant time and no memory.
pub fn judge(owner: Option<CoreId>, tag: Tid, from: CoreId, back: Tid) -> Take
    ensures map { verdict_of result ≡ verdict (option_map (λ c. c.0) owner) tag.0 from.0 back.0 }
    ensures waits { (result ≡ Take.Wait) ↔ (tag.0 < back.0) }
    ensures takes { (result ≡ Take.Take) ↔ ((tag ≡ back) × (owner ≡ Some from)) }
{
    if back > tag {
        Take::Wait
    } else if back == tag && owner == Some(from) {
        Take::Take
    } else {
        Take::Drop
    }
}
