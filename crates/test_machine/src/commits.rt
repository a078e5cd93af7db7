// Commits that come out of order, with ample memory.
ghost use Rattle.std.specs.Prelude.{◌≡◌, IfOk};

use machine_commits::CommitList;
use std::alloc::Global;
use std::test::Fail;
use tcc_base::{Commit, CoreId, List, NoMemory, Tid};

// A commit that printed one byte.
fn commit(alloc: Global, tid: u64, core: u8, byte: u8) -> Result<Commit, NoMemory>
    ensures { IfOk result (λ c. c.tid.0 ≡ tid) }
{
    let mut console = List::new(alloc);
    console.push(byte)?;
    Ok(Commit {
        tid: Tid(tid),
        core: CoreId(core),
        n: 1,
        loads: List::new(alloc),
        stores: List::new(alloc),
        console,
    })
}

#[test]
fn commits_stand_by_rising_tid(rt: HostRuntime) -> Result<(), Fail> {
    let mut list = CommitList::new(rt.alloc());
    assert!(rt; list.is_empty());
    list.reserve()?;
    list.insert(commit(rt.alloc(), 2, 0, b'b')?);
    list.reserve()?;
    list.insert(commit(rt.alloc(), 1, 0, b'a')?);
    assert_eq!(rt; list.len(), 2);
    for (commit, tid) in list.as_slice().iter().zip([1, 2]) {
        assert_eq!(rt; commit.tid, Tid(tid));
    }
    let bytes = list.console(rt.alloc(), CoreId(0))?;
    assert_eq!(rt; bytes.items.as_slice(), b"ab".as_slice());
    list.forget_before(Tid(2));
    assert_eq!(rt; list.len(), 1);
    let left = list.console(rt.alloc(), CoreId(0))?;
    assert_eq!(rt; left.items.as_slice(), b"b".as_slice());
    list.forget_before(Tid(3));
    assert!(rt; list.is_empty());
    Ok(())
}
