// The text of a run by phases: the phase of each commit, and the report behind them.
ghost use Rattle.std.specs.Prelude.{◌≡◌, ◌++◌, [], IfOk, OnOk, length};
ghost use Rattle.std.specs.String.{string_bytes};
ghost use Rattle.image_load.specs.Contents.{started};
ghost use Rattle.net_core.specs.Machine.{history_of};
ghost use Rattle.theorem_phases.specs.Laws.{InPhases};
ghost use Rattle.tcc_cli.specs.Phased.{phase_line, phase_lines, phases_and, phases_text};
ghost use Rattle.tcc_cli.specs.Runs.{RunsTo};

use crate::reports::{Finished, report_of};
use image_load::Loaded;
use std::alloc::{AllocError, Global};
use tcc_base::{Commit, NoMemory};
use tcc_phase::PhaseSystem;

/// The line of a commit and its phase.
#[tactic(auto, unfolding(crate::specs::Phased::phase_line))]
fn push_phase(text: &mut String, commit: &Commit, phase: u32) -> Result<(), AllocError>
    ensures { OnOk result (string_bytes text.new ≡ string_bytes text.old ++ phase_line commit.now phase) }
{
    write!(
        text,
        "commit {} {} {} phase {phase}\n",
        commit.tid.0, commit.core.0, commit.n
    )
}

/// The lines of commits, of which each has a phase.
fn push_phases(text: &mut String, commits: &[Commit], phases: &[u32]) -> Result<(), AllocError>
    requires { length phases.now ≡ length commits.now }
    ensures { OnOk result (string_bytes text.new ≡ string_bytes text.old ++ phase_lines commits.now phases.now) }
{
    for (i, commit) in commits.iter().enumerate() {
        push_phase(text, commit, phases[i])?;
    }
    Ok(())
}

/// The phases of commits, and a report behind them.
fn in_front(
    alloc: Global,
    commits: &[Commit],
    phases: &[u32],
    report: &str,
) -> Result<String, AllocError>
    requires { length phases.now ≡ length commits.now }
    ensures { IfOk result (λ text. string_bytes text ≡ phases_and commits.now phases.now report.now) }
{
    let mut text = String::from_str(alloc, "tcc-phases 1\n")?;
    push_phases(&mut text, commits, phases)?;
    text.push_str(report)?;
    Ok(text)
}

/// The phases and the report of a machine as it stands after a run by phases, which began with what was loaded.
pub fn phases_of(alloc: Global, loaded: &Loaded, system: &PhaseSystem) -> Result<Finished, NoMemory>
    requires code { system.now.refined.machine.cores.code ≡ loaded.now }
    requires settled { system.now.refined.machine.unsent ≡ [] }
    ensures phases { InPhases (started loaded.now) (history_of system.now.refined.machine) }
    ensures runs { IfOk result (λ f. RunsTo (started loaded.now) system.now.refined.taken f.done (history_of system.now.refined.machine)) }
    ensures text { IfOk result (λ f. string_bytes f.text ≡ phases_text (started loaded.now) f.done (length system.now.refined.taken)
        (history_of system.now.refined.machine)) }
{
    let refined = system.inner();
    let finished = report_of(alloc, loaded, refined)?;
    let commits = refined.system().commits();
    match in_front(alloc, commits, system.phases(), finished.text.as_str()) {
        Ok(text) => Ok(Finished {
            done: finished.done,
            text,
        }),
        Err(_) => Err(NoMemory),
    }
}
