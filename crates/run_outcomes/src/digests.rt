// By which states are found: states that are the same have the same digest, and few others have.
ghost use Rattle.std.specs.Prelude.{◌≡◌};
ghost use Rattle.run_outcomes.specs.Digests.{mixed, mixed_registers, mixed_bytes, end_digest, core_digest, mixed_cores};
ghost use Rattle.run_outcomes.specs.Digests.{mixed_changes, state_digest};

use crate::states::Snapshot;
use reg_checkpoint::Regs;
use rv_plain::CoreState;
use tcc_base::{CoreEnd, Reg};

/// The digest of a state. Takes time in the state.
#[tactic(auto, unfolding(crate::specs::Digests::state_digest))]
pub(crate) fn digest(state: &Snapshot) -> u64
    ensures { result ≡ state_digest state.now }
{
    mix_changes(mix_cores(&state.cores.items), &state.changes.items)
}

#[tactic(auto, unfolding(crate::specs::Digests::mixed_cores))]
fn mix_cores(cores: &[CoreState]) -> u64
    ensures { result ≡ mixed_cores cores.now }
{
    let mut sum = 0;
    for core in cores {
        sum = mix(sum, digest_of_core(core));
    }
    sum
}

#[tactic(auto, unfolding(crate::specs::Digests::mixed_changes))]
pub(crate) fn mix_changes(first: u64, changes: &[(u32, u32)]) -> u64
    ensures { result ≡ mixed_changes first changes.now }
{
    let mut sum = first;
    for (w, value) in changes {
        sum = mix(mix(sum, *w as u64), *value as u64);
    }
    sum
}

#[tactic(auto, unfolding(crate::specs::Digests::core_digest))]
fn digest_of_core(core: &CoreState) -> u64
    ensures { result ≡ core_digest core.now }
{
    let first = mix(core.state.pc() as u64, digest_of_end(core.ended));
    mix_bytes(mix_registers(first, core.state.regs()), &core.console.items)
}

#[tactic(auto, unfolding(crate::specs::Digests::mixed_registers))]
fn mix_registers(first: u64, regs: &Regs) -> u64
    ensures { result ≡ mixed_registers regs.now first 32 }
{
    let mut sum = first;
    for number in 0..32 {
        if let Some(r) = Reg::new(number) {
            sum = mix(sum, regs.get(r) as u64);
        }
    }
    sum
}

#[tactic(auto, unfolding(crate::specs::Digests::mixed_bytes))]
pub(crate) fn mix_bytes(first: u64, bytes: &[u8]) -> u64
    ensures { result ≡ mixed_bytes first bytes.now }
{
    let mut sum = first;
    for byte in bytes {
        sum = mix(sum, *byte as u64);
    }
    sum
}

pub(crate) fn digest_of_end(end: CoreEnd) -> u64
    ensures { result ≡ end_digest end }
{
    match end {
        CoreEnd::Run => 0,
        CoreEnd::Halt(code) => 1 + code as u64,
        CoreEnd::Trap(cause) => 1 + (1 << 32) + cause as u64,
    }
}

#[tactic(auto, unfolding(crate::specs::Digests::mixed))]
pub(crate) fn mix(sum: u64, more: u64) -> u64
    ensures { result ≡ mixed sum more }
{
    let turned = sum.rotate_left(5) ^ more;
    turned.wrapping_mul(0x517c_c1b7_2722_0a95)
}
