// What the cores hold.
ghost use Rattle.std.specs.Prelude.{◌≡◌, ◌<◌, ◌↔◌, ℕ, false, None, Some, IsTrue, MatchOption};
ghost use Rattle.rules_tcc.specs.State.{Halted};
ghost use Rattle.theorem_serial.specs.Commits.{end_after};
ghost use Rattle.spec_cache.specs.Look.{Views};
ghost use Rattle.core_node.specs.View.{core_of};
ghost use Rattle.rv_exec.specs.Outcomes.{outcome_of};
ghost use Rattle.machine_cores.specs.Bank.{cores_of};
ghost use Rattle.machine_cores.specs.Rest.{IsAtRest};

use crate::bank::CoreBank;
use commit_engine::Phase;
use core_node::CoreNode;
use reg_checkpoint::Check;
use rv_code::Code;
use rv_exec::Outcome;
use spec_cache::FrameView;
use tcc_base::{CoreEnd, CoreId, LineAddr};

impl CoreBank {
    /// The program as it was loaded, and the settings.
    pub fn code(&self) -> &Code
        ensures { result.now ≡ self.now.code }
    {
        &self.code
    }

    /// The registers and pc of a core as its last commit left them.
    pub fn committed(&self, core: CoreId) -> &Check
        requires { core.0 < self.now.code.settings.cores }
        ensures { result.now ≡ (cores_of self.now core.0).saved }
    {
        self.core(core).check()
    }

    /// Whether a core has halted, and how.
    pub fn ended(&self, core: CoreId) -> CoreEnd
        requires { core.0 < self.now.code.settings.cores }
        ensures { let c = cores_of self.now core.0 in result ≡ end_after c.phase c.ended }
    {
        let core = self.core(core);
        match core.phase() {
            Phase::Halted => end_of(core.ended()),
            _ => CoreEnd::Run,
        }
    }

    /// The frame of a line in a core's cache; None exactly where it has none.
    pub fn frame_of(&self, core: CoreId, line: LineAddr) -> Option<FrameView>
        requires { core.0 < self.now.code.settings.cores }
        ensures { let c = (cores_of self.now core.0).cache in
            MatchOption result (c.held line.0 ≡ false) (λ f. IsTrue (c.held line.0) × Views c line.0 f) }
    {
        self.core(core).frame_of(line)
    }

    /// Whether every core has halted, and none has a dirty word of a line in RAM. Takes time in the number of cores.
    pub fn all_rest(&self) -> bool
        ensures { IsTrue result ↔ ((c : ℕ) → c < self.now.code.settings.cores → IsAtRest self.now.code.settings (cores_of self.now c)) }
    {
        for core in &self.cores.items {
            if !rests(core) {
                return false;
            }
        }
        true
    }
}

/// Whether a core has halted without a dirty word of a line in RAM.
fn rests(core: &CoreNode) -> bool
    ensures { IsTrue result ↔ IsAtRest core.now.config (core_of core.now) }
{
    core.phase() == Phase::Halted && !core.any_dirty()
}

/// How a core that halted did.
fn end_of(outcome: Outcome) -> CoreEnd
    ensures { result ≡ end_after Halted (outcome_of outcome) }
{
    match outcome {
        Outcome::Halted(code) => CoreEnd::Halt(code),
        Outcome::Trapped(code) => CoreEnd::Trap(code),
        Outcome::Goes | Outcome::Ended => CoreEnd::Run,
    }
}
