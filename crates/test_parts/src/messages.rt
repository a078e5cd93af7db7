// Each call of the pool and of what is sent, with ample memory.
use std::mem::size_of;
use std::test::Fail;
use tcc_base::{CoreId, DirId, LineAddr, NodeId, Tid};
use tcc_msg::{Msg, Name, Outgoing, Pool};

fn name(core: u8, seq: u64) -> Name {
    Name {
        src: NodeId::Core(CoreId(core)),
        dst: NodeId::Dir(DirId(0)),
        seq,
    }
}

fn skip(tid: u64) -> Msg {
    Msg::Skip { tid: Tid(tid) }
}

#[test]
fn a_pool_holds_each_message_until_it_is_removed(rt: HostRuntime) -> Result<(), Fail> {
    let mut pool = Pool::new(rt.alloc());
    assert!(rt; pool.is_empty());
    for (core, seq, tid) in [(0, 0, 7), (1, 0, 8), (0, 1, 9)] {
        let name = name(core, seq);
        assert!(rt; pool.get(name).is_none());
        assert!(rt; pool.add(name, skip(tid)).is_ok());
    }
    assert_eq!(rt; pool.len(), 3);
    assert_eq!(rt; pool.get(name(1, 0)), Some(&skip(8)));
    assert_eq!(rt; pool.get(name(1, 1)), None);
    assert_eq!(rt; pool.remove(name(0, 0)), Some(skip(7)));
    assert_eq!(rt; pool.remove(name(0, 0)), None);
    assert_eq!(rt; pool.at(0), Some((name(0, 1), &skip(9))));
    assert_eq!(rt; pool.at(1), Some((name(1, 0), &skip(8))));
    assert_eq!(rt; pool.at(2), None);
    assert_eq!(rt; pool.remove_at(0), Some((name(0, 1), skip(9))));
    assert_eq!(rt; pool.at(0), Some((name(1, 0), &skip(8))));
    assert_eq!(rt; pool.remove_at(1), None);
    Ok(())
}

#[test]
fn what_is_sent_stands_in_order(rt: HostRuntime) -> Result<(), Fail> {
    let mut out = Outgoing::new(rt.alloc());
    let line = LineAddr(3);
    assert!(rt; out.push(NodeId::Vendor, Msg::TidReq).is_ok());
    assert!(rt;
        out.push(NodeId::Core(CoreId(2)), Msg::DataReq { line })
            .is_ok()
    );
    assert_eq!(rt; out.len(), 2);
    out.truncate(1);
    assert_eq!(rt;
        out.list.as_slice(),
        [(NodeId::Vendor, Msg::TidReq)].as_slice()
    );
    out.clear();
    assert!(rt; out.is_empty());
    Ok(())
}

#[test]
fn a_message_takes_48_bytes(rt: HostRuntime) -> Result<(), Fail> {
    assert_eq!(rt; size_of::<Msg>(), 48);
    Ok(())
}
