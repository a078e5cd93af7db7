// Cores that are made from their plain data: copies of others, and what is no core.
ghost use Rattle.std.specs.Prelude.{◌≡◌, IfOk};

use crate::cores::{begun, exec};
use crate::loading::code_of;
use commit_engine::Phase;
use core_node::{Awaited, Core, CoreNode};
use overflow_buf::OverflowBuf;
use rv_code::Code;
use spec_cache::SpecCache;
use std::alloc::Global;
use std::test::Fail;
use tcc_base::{Config, DirId, LineAddr, List, NoMemory, NodeId, Tid};
use tcc_msg::{Msg, Outgoing};

// The same items.
fn list_of<T: Copy + Drop>(alloc: Global, list: &List<T>) -> Result<List<T>, NoMemory> {
    let mut copy = List::new(alloc);
    for item in &list.items {
        copy.push(*item)?;
    }
    Ok(copy)
}

// A cache with the same frames in the same ways.
fn cache_of(alloc: Global, cache: &SpecCache) -> Result<SpecCache, NoMemory> {
    let config = cache.config();
    let mut copy = SpecCache::new(alloc, &config)?;
    for set in 0..config.sets() {
        for way in 0..config.ways() {
            put_copy(&mut copy, cache, set, way);
        }
    }
    Ok(copy)
}

// Puts the frame of a way of the other cache into the same way.
fn put_copy(copy: &mut SpecCache, cache: &SpecCache, set: u16, way: u8) {
    let Some(line) = cache.line_at(set, way) else {
        return;
    };
    if let Some(frame) = cache.frame_of(line) {
        let _ = copy.restore_frame(set, way, &frame);
    }
}

// A buffer that keeps the same words.
fn buffer_of(alloc: Global, buf: &OverflowBuf) -> Result<OverflowBuf, NoMemory> {
    let mut copy = OverflowBuf::new(alloc);
    for line in &buf.lines()? {
        let kept = buf.line(LineAddr(*line), Tid(0));
        copy.spill(kept.line, kept.mask, &kept.words)?;
    }
    Ok(copy)
}

// All that the core holds, once more.
pub(crate) fn data_of(alloc: Global, core: &Core) -> Result<Core, NoMemory>
    ensures { IfOk result (λ c. c.config ≡ core.now.config) }
{
    Ok(Core {
        config: core.config,
        id: core.id,
        state: core.state,
        check: core.check,
        n: core.n,
        loads: list_of(alloc, &core.loads)?,
        stores: list_of(alloc, &core.stores)?,
        console: list_of(alloc, &core.console)?,
        ended: core.ended,
        phase: core.phase,
        owing: core.owing,
        after: core.after,
        cache: cache_of(alloc, &core.cache)?,
        spilled: buffer_of(alloc, &core.spilled)?,
        awaited: core.awaited,
    })
}

// The core of these data.
pub(crate) fn core_with(data: Core) -> Result<CoreNode, Fail>
    ensures { IfOk result (λ n. n.config ≡ data.config) }
{
    match CoreNode::restored(data) {
        Some(core) => Ok(core),
        None => Err(Fail::new("no core has these data")),
    }
}

// A copy of a core.
pub(crate) fn copy_of(alloc: Global, core: &CoreNode) -> Result<CoreNode, Fail>
    ensures { IfOk result (λ n. n.config ≡ core.now.config) }
{
    core_with(data_of(alloc, core.core())?)
}

// Whether both attempts are as far and did the same.
fn are_as_far(a: &Core, b: &Core) -> bool {
    a.n == b.n
        && a.loads.items.as_slice() == b.loads.items.as_slice()
        && a.stores.items.as_slice() == b.stores.items.as_slice()
}

// Whether both cores hold the same, of the frames those of lines 2 and 3.
fn are_alike(a: &CoreNode, b: &CoreNode) -> bool {
    let now = a.core();
    let other = b.core();
    now.state == other.state
        && now.phase == other.phase
        && now.awaited == other.awaited
        && are_as_far(now, other)
        && a.frame_of(LineAddr(2)) == b.frame_of(LineAddr(2))
        && a.frame_of(LineAddr(3)) == b.frame_of(LineAddr(3))
}

// Executes in a core and in a copy of it, and says whether both did and sent the same and hold the same then.
fn both_execute(
    core: &mut CoreNode,
    copy: &mut CoreNode,
    code: &Code,
    out: &mut Outgoing,
    again: &mut Outgoing,
) -> bool
    requires core { code.now.settings ≡ core.old.config }
    requires copy { code.now.settings ≡ copy.old.config }
    ensures core { core.new.config ≡ core.old.config }
    ensures copy { copy.new.config ≡ copy.old.config }
{
    let done = exec(core, code, out);
    let same = exec(copy, code, again) == done;
    same && out.list.as_slice() == again.list.as_slice() && are_alike(core, copy)
}

// Line 3, as its home sends it.
const FILL: Msg = Msg::Fill {
    line: LineAddr(3),
    words: [7; 8],
};

// Whether a core takes line 3 from its home.
fn takes_line(core: &mut CoreNode, out: &mut Outgoing) -> bool
    ensures { core.new.config ≡ core.old.config }
{
    if core.core().config.dirs() == 0 {
        return false;
    }
    core.deliver(NodeId::Dir(DirId(0)), &FILL, out).is_ok()
}

// Copies a core that awaits line 3, and says of five calls whether both answer alike: each takes the line, and both execute three
// instructions.
fn copy_goes_on(alloc: Global, core: &mut CoreNode, code: &Code) -> Result<[bool; 5], Fail>
    requires { code.now.settings ≡ core.old.config }
{
    let mut copy = copy_of(alloc, core)?;
    let mut out = Outgoing::new(alloc);
    let mut again = Outgoing::new(alloc);
    Ok([
        takes_line(core, &mut out),
        takes_line(&mut copy, &mut again),
        both_execute(core, &mut copy, code, &mut out, &mut again),
        both_execute(core, &mut copy, code, &mut out, &mut again),
        both_execute(core, &mut copy, code, &mut out, &mut again),
    ])
}

// The same of a core that begins with this image and executes, and its phase then.
fn copy_of_begun_goes_on(alloc: Global, image: &[u32]) -> Result<([bool; 5], Phase), Fail> {
    let code = code_of(alloc, 1, 1, image)?;
    let mut core = begun(alloc, &code)?;
    let mut out = Outgoing::new(alloc);
    let _ = exec(&mut core, &code, &mut out);
    let alike = copy_goes_on(alloc, &mut core, &code)?;
    Ok((alike, core.phase()))
}

#[test]
fn a_copy_executes_on_as_its_original(rt: HostRuntime) -> Result<(), Fail> {
    // lw x5,96(x0); sw x5,64(x0); ecall
    let image = [0x0600_2283, 0x0450_2023, 0x73];
    assert_eq!(rt;
        copy_of_begun_goes_on(rt.alloc(), &image)?,
        ([true; 5], Phase::AwaitTid)
    );
    Ok(())
}

// The data of a core that has just begun.
fn first_data(alloc: Global) -> Result<Core, Fail> {
    let code = code_of(alloc, 1, 1, &[0x73])?;
    let core = begun(alloc, &code)?;
    Ok(data_of(alloc, core.core())?)
}

// Whether it would be a core that awaited line 3, of which it has no frame.
fn is_core_awaiting(alloc: Global) -> Result<bool, Fail> {
    let mut data = first_data(alloc)?;
    data.awaited = Some(Awaited {
        line: LineAddr(3),
        stale: false,
    });
    Ok(CoreNode::restored(data).is_some())
}

// Whether it would be a core with a cache of two ways a set in place of one.
fn is_core_with_other_cache(alloc: Global) -> Result<bool, Fail> {
    let mut data = first_data(alloc)?;
    let cfg = Config::new(1, 1, 4, 2, 0, 65_536)?;
    data.cache = SpecCache::new(alloc, &cfg)?;
    Ok(CoreNode::restored(data).is_some())
}

#[test]
fn what_is_no_core_is_none(rt: HostRuntime) -> Result<(), Fail> {
    assert!(rt; !is_core_awaiting(rt.alloc())?);
    assert!(rt; !is_core_with_other_cache(rt.alloc())?);
    Ok(())
}
