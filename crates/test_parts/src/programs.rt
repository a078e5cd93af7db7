// The instructions of a program of two words, and what lies beside them.
ghost use Rattle.std.specs.Prelude.{◌≡◌, IfOk};

use crate::registers::x;
use image_load::{Loaded, load, raw};
use rv_code::{Code, start_state};
use rv_decode::Inst;
use rv_exec::Need;
use std::alloc::Global;
use std::test::Fail;
use tcc_base::{Config, CoreId, List, WordAddr};

const IMAGE: [u8; 8] = [
    0x73, 0x00, 0x00, 0x00, // ecall
    0xff, 0xff, 0xff, 0xff, // in no row of the table
];

/// This image in the 65,536 bytes of RAM of two cores, from 0x80000000 on.
pub(crate) fn loaded(alloc: Global, image: &[u8]) -> Result<Loaded, Fail>
    ensures cores { IfOk result (λ l. l.settings.cores ≡ 2) }
    ensures ram { IfOk result (λ l. l.settings.ram ≡ 65536) }
{
    let config = Config::new(2, 1, 16, 2, 0x8000_0000, 65_536)?;
    let files = [List {
        items: image.to_vec(alloc)?,
    }];
    let images = raw(alloc, &config, &files)?;
    Ok(load(alloc, &config, &images)?)
}

#[test]
fn finds_instructions_and_traps(rt: HostRuntime) -> Result<(), Fail> {
    let alloc = rt.alloc();
    let code = Code::new(alloc, loaded(alloc, &IMAGE)?)?;
    let mut state = start_state(2, 1, code.entry(CoreId(1)));
    assert_eq!(rt; (state.get(x(10)), state.get(x(11))), (1, 2));
    assert_eq!(rt; code.inst(&state), Ok(Inst::Ecall));
    assert_eq!(rt; code.plan(&Inst::Ecall, &state), Need::End);
    let rows = [
        (0x8000_0004, Err(2)),
        (0x8000_0008, Err(1)),
        (0x8000_0001, Err(2)),
        (0x7fff_fffc, Err(1)),
        (0x8001_0000, Err(1)),
    ];
    for (pc, found) in rows {
        state.go_to(pc);
        assert_eq!(rt; code.inst(&state), found);
    }
    let copy = code.copy(alloc)?;
    assert_eq!(rt; copy.word(WordAddr(1)), 0xffff_ffff);
    Ok(())
}
