// The summary of a trial.
ghost use Rattle.std.specs.Prelude.{◌≡◌, ◌++◌, ◌*◌, ◌^◌, ◌≤◌, IfOk, OnOk, string_bytes};
ghost use Rattle.report_text.specs.Trial.{work_line, commits_line, sum_line, trial_of, trial_text};

use crate::growing::sum_of_growth;
use crate::lines::{push_end, push_events};
use crate::shown::{ShownWords, Trial};
use std::alloc::{AllocError, Global};
use tcc_base::NoMemory;
use work_gen::Work;

#[tactic(auto, unfolding(crate::specs::Trial::work_line))]
fn push_work(text: &mut String, work: Work, number: u32) -> Result<(), AllocError>
    ensures { OnOk result (string_bytes text.new ≡ string_bytes text.old ++ work_line work number) }
{
    text.push_str("work ")?;
    text.push_str(work.word())?;
    write!(text, " {number}\n")
}

#[tactic(auto, unfolding(crate::specs::Trial::commits_line))]
fn push_commits(text: &mut String, commits: usize) -> Result<(), AllocError>
    ensures { OnOk result (string_bytes text.new ≡ string_bytes text.old ++ commits_line commits) }
{
    write!(text, "commits {commits}\n")
}

#[tactic(auto, unfolding(crate::specs::Trial::sum_line))]
fn push_sum(text: &mut String, growth: u32) -> Result<(), AllocError>
    ensures { OnOk result (string_bytes text.new ≡ string_bytes text.old ++ sum_line growth) }
{
    write!(text, "sum {growth:08x}\n")
}

#[tactic(auto, unfolding(crate::specs::Trial::trial_text))]
fn summary_or_error<R: ShownWords, L: ShownWords>(
    alloc: Global,
    trial: &Trial<R, L>,
) -> Result<String, AllocError>
    requires same { R.count trial.now.ram.now ≡ L.count trial.now.loaded.now }
    requires fits { 4 * R.count trial.now.ram.now ≤ 2 ^ 32 }
    ensures { IfOk result (λ text. string_bytes text ≡ trial_text (trial_of R.words R.count L.words trial.now)) }
{
    let growth = sum_of_growth(trial.ram, trial.loaded);
    let mut text = String::from_str(alloc, "tcc-trial 1\n")?;
    push_work(&mut text, trial.work, trial.number)?;
    push_end(&mut text, trial.done)?;
    push_events(&mut text, trial.events)?;
    push_commits(&mut text, trial.commits)?;
    push_sum(&mut text, growth)?;
    Ok(text)
}

/// The summary of a trial: its workload, whether the run is done, its events, its commits, and the sum modulo 2^32 of what the
/// words of RAM grew by.
///
/// `ram` and `loaded` have equally many words, of 2^32 bytes at most. Reads each line of both once. Fails only for want of
/// memory.
pub fn trial_summary<R: ShownWords, L: ShownWords>(
    alloc: Global,
    trial: &Trial<R, L>,
) -> Result<String, NoMemory>
    requires same { R.count trial.now.ram.now ≡ L.count trial.now.loaded.now }
    requires fits { 4 * R.count trial.now.ram.now ≤ 2 ^ 32 }
    ensures { IfOk result (λ text. string_bytes text ≡ trial_text (trial_of R.words R.count L.words trial.now)) }
{
    summary_or_error(alloc, trial).map_err(|_| NoMemory)
}
