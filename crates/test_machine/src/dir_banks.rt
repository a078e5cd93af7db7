// A bank of two directories, with ample memory.
ghost use Rattle.std.specs.Prelude.{◌≡◌};

use crate::loading::loaded;
use dir_lines::{CoreSet, LineRecord};
use directory::Handled;
use machine_dirs::DirBank;
use skip_vector::SkipVector;
use std::alloc::Global;
use std::test::Fail;
use tcc_base::{CoreId, DirId, LineAddr, Mask, NoMemory, Tid, WordAddr};
use tcc_msg::{Msg, Outgoing};

#[test]
fn each_directory_answers_for_itself(rt: HostRuntime) -> Result<(), Fail> {
    let alloc = rt.alloc();
    let loaded = loaded(alloc, 1, 2, [&[0x73], &[]])?;
    let mut bank = DirBank::start(alloc, &loaded)?;
    assert_eq!(rt; bank.word(WordAddr(0)), 0x73);
    let mut out = Outgoing::new(alloc);
    let skip = Msg::Skip { tid: Tid(1) };
    assert_eq!(rt;
        bank.deliver(DirId(1), CoreId(0), &skip, &mut out),
        Ok(Handled::Handled)
    );
    let probe = Msg::Probe { tid: Tid(2) };
    assert!(rt; bank.takes(DirId(1), CoreId(0), &probe));
    assert!(rt; !bank.takes(DirId(0), CoreId(0), &probe));
    Ok(())
}

// Shared by this core, and last committed by TID 4.
fn shared(core: u8) -> LineRecord {
    LineRecord {
        sharers: CoreSet(if core < 64 { 1 << core } else { 0 }),
        owner: None,
        tag: Tid(4),
        asked: false,
        mark: Mask(0),
    }
}

#[test]
fn lines_are_restored_at_their_homes(rt: HostRuntime) -> Result<(), Fail> {
    let loaded = loaded(rt.alloc(), 1, 2, [&[0x73], &[]])?;
    let mut bank = DirBank::start(rt.alloc(), &loaded)?;
    assert!(rt; bank.restore_line(LineAddr(1), shared(0), &[9; 8]));
    assert!(rt; !bank.restore_line(LineAddr(2), shared(1), &[9; 8]));
    assert!(rt; !bank.restore_line(LineAddr(u32::MAX), shared(0), &[9; 8]));
    assert_eq!(rt; bank.word(WordAddr(8)), 9);
    assert_eq!(rt; bank.tag(LineAddr(1)), Tid(4));
    assert_eq!(rt; bank.word(WordAddr(16)), 0);
    assert_eq!(rt; bank.tag(LineAddr(2)), Tid(0));
    Ok(())
}

// Lets a directory serve this TID, with so many acknowledgements owed and no skip, and says whether it does.
fn serves(
    alloc: Global,
    bank: &mut DirBank,
    dir: DirId,
    tid: u64,
    owed: u64,
) -> Result<bool, NoMemory>
    ensures { bank.new.settings ≡ bank.old.settings }
{
    match SkipVector::restored(alloc, Tid(tid), &[])? {
        Some(skips) => Ok(bank.restore_serving(dir, skips, owed)),
        None => Ok(false),
    }
}

#[test]
fn a_directory_that_is_there_serves_again(rt: HostRuntime) -> Result<(), Fail> {
    let loaded = loaded(rt.alloc(), 1, 2, [&[0x73], &[]])?;
    let mut bank = DirBank::start(rt.alloc(), &loaded)?;
    assert_eq!(rt; serves(rt.alloc(), &mut bank, DirId(1), 5, 0)?, true);
    assert_eq!(rt;
        serves(rt.alloc(), &mut bank, DirId(0), (1 << 62) + 1, 1)?,
        false
    );
    assert_eq!(rt; serves(rt.alloc(), &mut bank, DirId(2), 5, 0)?, false);
    assert_eq!(rt; bank.serving(DirId(0)), Tid(1));
    assert_eq!(rt; bank.serving(DirId(1)), Tid(5));
    Ok(())
}
