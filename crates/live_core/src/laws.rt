// What follows from the rules: the reasons to wait are the directory's, and no machine that they have led to is stuck.
ghost use Rattle.live_core.specs.Reached.{IsLive};
ghost use Rattle.live_core.specs.Waiting.{ReasonsAreTheRules};
ghost use Rattle.net_core.specs.Reached.{Reached};

use net_core::System;
use theorem_riscv::riscv_machines_are_never_stuck;

/// A law: what goes to a directory is taken there exactly where it has no reason to wait.
pub fn reasons_are_the_rules()
    ensures { ReasonsAreTheRules }
{}

/// A law: what the rules have led to from the start isn't stuck.
pub fn machines_are_live(system: &System)
    ensures { Reached system.now → IsLive system.now }
{
    system.config().cores();
    riscv_machines_are_never_stuck();
}
