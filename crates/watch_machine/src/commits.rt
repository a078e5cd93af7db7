// The commit that a step noted.
ghost use Rattle.std.specs.Prelude.{◌≡◌, ◌++◌, OnOk, map};
ghost use Rattle.std.specs.Option.{option_map};
ghost use Rattle.watch.specs.Happened.{commit_fact};
ghost use Rattle.watch.specs.Plain.{fact_of};
ghost use Rattle.watch_machine.specs.Watched.{told_commit};

use net_core::Step;
use tcc_base::{Commit, List, NoMemory};
use watch::Fact;
use watch_core::commit_of;

/// The commit that a step noted, among those of the machine. It takes time in the commits behind it.
pub fn noted(commits: &[Commit], step: Step) -> Option<&Commit>
    ensures { option_map (λ c. c.now) result ≡ told_commit step commits.now }
{
    match step {
        Step::Moved => None,
        Step::Committed(tid) => commit_of(commits, tid),
    }
}

/// Tells of the commit that a step noted, where it noted one.
pub(crate) fn tell_commit(
    commits: &[Commit],
    step: Step,
    facts: &mut List<Fact>,
) -> Result<(), NoMemory>
    ensures { OnOk result (map fact_of facts.new ≡ map fact_of facts.old ++ commit_fact (told_commit step commits.now)) }
{
    match noted(commits, step) {
        Some(commit) => facts.push(Fact::Committed {
            tid: commit.tid,
            core: commit.core,
            n: commit.n,
        }),
        None => Ok(()),
    }
}
