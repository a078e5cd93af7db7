// Where the frames of a core's cache are that something may change.
ghost use Rattle.std.specs.Prelude.{◌≡◌, ◌<◌, ◌||◌, IfOk, IfSome};
ghost use Rattle.std.specs.Option.{option_map};
ghost use Rattle.rules_maps.specs.Cache.{IsCache};
ghost use Rattle.rules_maps.specs.CacheLook.{reads_masked as any_masked};
ghost use Rattle.rules_maps.specs.CacheUse.{is_number};
ghost use Rattle.rules_maps.specs.Shape.{set_of};
ghost use Rattle.rules_maps.specs.Words.{those};
ghost use Rattle.spec_cache.specs.MarkedSets.{has_marked};
ghost use Rattle.core_node.specs.View.{core_of};

use crate::node::CoreNode;
use tcc_base::{LineAddr, List, Mask, NoMemory};

impl CoreNode {
    /// The set in which a line may have a frame. It takes constant time.
    #[tactic(auto, unfolding(crate::specs::View::core_of))]
    pub fn set_of_line(&self, line: LineAddr) -> u16
        ensures value { result ≡ set_of self.now.config line.0 }
        ensures exists { result < self.now.config.sets }
        ensures consistent { IsCache self.now.config (core_of self.now).cache }
    {
        self.core.cache.set_of_line(line)
    }

    /// The line that a way holds; None exactly where it holds none, or there is no such way. It takes constant time.
    #[tactic(auto, unfolding(crate::specs::View::core_of))]
    pub fn line_at(&self, set: u16, way: u8) -> Option<LineAddr>
        ensures { option_map (λ l. l.0) result ≡ (core_of self.now).cache.at set way }
    {
        self.core.cache.line_at(set, way)
    }

    /// Whether a masked word of the line is marked read. It takes time in the ways of a set.
    #[tactic(auto, unfolding(crate::specs::View::core_of))]
    pub fn reads_masked(&self, line: LineAddr, mask: Mask) -> bool
        ensures { result ≡ any_masked line.0 mask.0 (core_of self.now).cache }
    {
        self.core.cache.reads_masked(line, mask)
    }

    /// The sets in which a frame is marked, and this one, in rising order. It takes time in the frames that were marked since the last
    /// commit or roll back, and memory for their sets.
    #[tactic(auto, unfolding(crate::specs::View::core_of))]
    pub fn marked_sets(&self, and: Option<u16>) -> Result<List<u16>, NoMemory>
        requires { IfSome and (λ x. x < self.now.config.sets) }
        ensures { IfOk result (λ sets. sets
            ≡ those (λ x. is_number and x || has_marked self.now.config (core_of self.now).cache x) self.now.config.sets) }
    {
        self.core.cache.marked_sets(and)
    }
}
