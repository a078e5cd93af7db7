// What a caller sees of registers and checkpoints, at fixed values.
ghost use Rattle.std.specs.Prelude.{◌<◌};

use reg_checkpoint::{Check, Regs, State};
use tcc_base::Reg;

/// A register by its number.
pub(crate) fn x(number: u8) -> Reg
    requires { number < 32 }
{
    Reg::new(number).unwrap()
}

#[test]
fn restores_what_was_saved(rt: HostRuntime) {
    let zero = x(0);
    let last = x(31);
    let mut regs = Regs::new();
    regs.set(last, 0xffff_ffff);
    regs.set(zero, 7);
    let mut state = State::new(regs, 0x8000_0000);
    let check = Check::save(&state);
    state.set(last, 1);
    state.go_to(0x8000_0004);
    state.reserve(0x8000_0040);
    assert_eq!(rt; state.get(last), 1);
    assert_eq!(rt; state.reserved(), Some(0x8000_0040));
    let saved = check.restore();
    assert_eq!(rt; saved.get(last), 0xffff_ffff);
    assert_eq!(rt; saved.get(zero), 0);
    assert_eq!(rt; saved.pc(), 0x8000_0000);
    assert_eq!(rt; saved.reserved(), None);
}
