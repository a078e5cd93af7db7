// A bank of two cores.
ghost use Rattle.std.specs.Prelude.{◌≡◌, IfOk};

use crate::loading::code_of;
use crate::restored_cores::{copy_of, core_with, data_of};
use core_node::{CoreNode, Executed};
use machine_cores::CoreBank;
use spec_cache::FrameView;
use std::alloc::Global;
use std::test::Fail;
use tcc_base::{Config, CoreEnd, CoreId, DirId, LineAddr, Mask, NodeId, Tid};
use tcc_msg::{Event, Msg, Outgoing};

// Two cores that begin with this image.
fn begun(alloc: Global, image: &[u32]) -> Result<CoreBank, Fail>
    ensures { IfOk result (λ b. b.code.settings.cores ≡ 2) }
{
    Ok(CoreBank::start(alloc, code_of(alloc, 2, 1, image)?)?)
}

#[test]
fn all_cores_can_begin(rt: HostRuntime) -> Result<(), Fail> {
    // ecall
    let bank = begun(rt.alloc(), &[0x73])?;
    assert_eq!(rt; (bank.exec_total(), bank.evict_total()), (2, 0));
    assert_eq!(rt; bank.exec_at(1), Some(Event::Exec(CoreId(1))));
    assert_eq!(rt; (bank.exec_at(2), bank.evict_at(0)), (None, None));
    assert_eq!(rt; bank.ended(CoreId(1)), CoreEnd::Run);
    assert!(rt; !bank.all_rest());
    assert_eq!(rt; bank.all_cores().len(), 2);
    Ok(())
}

#[test]
fn a_core_that_waits_can_not_execute(rt: HostRuntime) -> Result<(), Fail> {
    // lw x5,96(x0)
    let mut bank = begun(rt.alloc(), &[0x0600_2283])?;
    let mut out = Outgoing::new(rt.alloc());
    let done = bank.exec(CoreId(0), &mut out)?;
    assert!(rt; matches!(&done, Executed::Asked));
    assert_eq!(rt;
        (bank.exec_total(), bank.exec_at(0)),
        (1, Some(Event::Exec(CoreId(1))))
    );
    let fill = Msg::Fill {
        line: LineAddr(3),
        words: [7; 8],
    };
    bank.deliver(CoreId(0), NodeId::Dir(DirId(0)), &fill, &mut out)?;
    assert_eq!(rt; bank.exec_total(), 2);
    Ok(())
}

// A core with the data of this one, and a dirty word of line 2 in its cache, if it had no frame of set 2.
fn with_dirty_word(alloc: Global, core: &CoreNode) -> Result<CoreNode, Fail> {
    let mut data = data_of(alloc, core.core())?;
    let frame = FrameView {
        line: LineAddr(2),
        words: [5; 8],
        valid: Mask(1),
        read: Mask(0),
        modified: Mask(0),
        dirty: Mask(1),
        tag: Tid(1),
    };
    let _ = data.cache.restore_frame(2, 0, &frame);
    core_with(data)
}

// A copy of core 0 once it awaits a line.
fn waiting(alloc: Global) -> Result<CoreNode, Fail> {
    // lw x5,96(x0)
    let mut bank = begun(alloc, &[0x0600_2283])?;
    let mut out = Outgoing::new(alloc);
    let _ = bank.exec(CoreId(0), &mut out)?;
    copy_of(alloc, bank.core(CoreId(0)))
}

// A copy of core 1 with a dirty word in its cache.
fn dirty(alloc: Global) -> Result<CoreNode, Fail> {
    let bank = begun(alloc, &[0x0600_2283])?;
    with_dirty_word(alloc, bank.core(CoreId(1)))
}

// Whether a bank of two cores takes the core, how many can execute then, and the first useful eviction.
fn taken(
    alloc: Global,
    id: CoreId,
    core: CoreNode,
) -> Result<(bool, u64, u64, Option<Event>), Fail> {
    let mut bank = begun(alloc, &[0x0600_2283])?;
    let taken = bank.restore(id, core);
    Ok((
        taken,
        bank.exec_total(),
        bank.evict_total(),
        bank.evict_at(0),
    ))
}

#[test]
fn a_core_is_taken_with_its_useful_events(rt: HostRuntime) -> Result<(), Fail> {
    let core = waiting(rt.alloc())?;
    assert_eq!(rt; taken(rt.alloc(), CoreId(0), core)?, (true, 1, 0, None));
    let core = dirty(rt.alloc())?;
    let evict = Event::Evict(CoreId(1), 2, 0);
    assert_eq!(rt;
        taken(rt.alloc(), CoreId(1), core)?,
        (true, 2, 1, Some(evict))
    );
    Ok(())
}

#[test]
fn a_core_of_another_place_is_not_taken(rt: HostRuntime) -> Result<(), Fail> {
    let core = waiting(rt.alloc())?;
    assert_eq!(rt; taken(rt.alloc(), CoreId(1), core)?, (false, 2, 0, None));
    let core = waiting(rt.alloc())?;
    assert_eq!(rt; taken(rt.alloc(), CoreId(2), core)?, (false, 2, 0, None));
    Ok(())
}

#[test]
fn a_core_of_another_machine_is_not_taken(rt: HostRuntime) -> Result<(), Fail> {
    let cfg = Config::new(2, 2, 4, 1, 0, 65_536)?;
    let core = CoreNode::start(rt.alloc(), &cfg, CoreId(0), 0)?;
    assert_eq!(rt; taken(rt.alloc(), CoreId(0), core)?, (false, 2, 0, None));
    Ok(())
}
