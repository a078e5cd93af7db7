// The commit of a TID.
ghost use Rattle.std.specs.Prelude.{◌≡◌};
ghost use Rattle.std.specs.Option.{option_map};
ghost use Rattle.watch.specs.Messages.{commit_of as commit_in, committer as committer_of};

use tcc_base::{Commit, CoreId, Tid};

/// The commit of this TID, looked for from the last on, since most that is asked for is recent. Takes time
/// in the commits behind it.
pub fn commit_of(commits: &[Commit], tid: Tid) -> Option<&Commit>
    ensures { option_map (λ c. c.now) result ≡ commit_in tid.0 commits.now }
{
    let mut left = commits.len();
    while left > 0 {
        left -= 1;
        let commit = &commits[left];
        if commit.tid.0 == tid.0 {
            return Some(commit);
        }
    }
    None
}

/// The core that committed this TID, 0 where none did. Takes time in the commits behind it.
pub fn committer(commits: &[Commit], tid: Tid) -> CoreId
    ensures { result.0 ≡ committer_of (commit_in tid.0 commits.now) }
{
    match commit_of(commits, tid) {
        Some(commit) => commit.core,
        None => CoreId(0),
    }
}
