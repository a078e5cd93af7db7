// What a core that has just begun does with messages and with a frame to empty, a load, and an end with its commit.
ghost use Rattle.std.specs.Prelude.{◌≡◌, ◌<◌, IfOk};

use crate::loading::code_of;
use commit_engine::Phase;
use core_node::{CoreError, CoreNode, Executed};
use rv_code::Code;
use std::alloc::Global;
use std::test::Fail;
use tcc_base::{Config, CoreId, DirId, LineAddr, NodeId, Tid};
use tcc_msg::{Msg, Outgoing};

// What a core answers to a message of the vendor, whether it has sent anything, and what it does then.
fn delivered(
    core: &mut CoreNode,
    msg: &Msg,
    out: &mut Outgoing,
) -> (Result<(), CoreError>, bool, Phase) {
    let answer = core.deliver(NodeId::Vendor, msg, out);
    (answer, !out.is_empty(), core.phase())
}

// The same for each of four messages, at the second of two cores.
fn all_delivered(
    alloc: Global,
    msgs: &[Msg; 4],
) -> Result<[(Result<(), CoreError>, bool, Phase); 4], Fail> {
    let cfg = Config::new(2, 2, 4, 1, 0x8000_0000, 65_536)?;
    let mut core = CoreNode::start(alloc, &cfg, CoreId(1), 0x8000_0000)?;
    let mut out = Outgoing::new(alloc);
    Ok([
        delivered(&mut core, &msgs[0], &mut out),
        delivered(&mut core, &msgs[1], &mut out),
        delivered(&mut core, &msgs[2], &mut out),
        delivered(&mut core, &msgs[3], &mut out),
    ])
}

#[test]
fn a_core_that_runs_takes_a_grant_without_effect(rt: HostRuntime) -> Result<(), Fail> {
    let tid = Tid(5);
    let msgs = [
        Msg::TidGrant { tid },
        Msg::TidReq,
        Msg::Probe { tid },
        Msg::DataReq { line: LineAddr(3) },
    ];
    let refused = (Err(CoreError::Blocked), false, Phase::Running);
    assert_eq!(rt;
        all_delivered(rt.alloc(), &msgs)?,
        [(Ok(()), false, Phase::Running), refused, refused, refused]
    );
    Ok(())
}

// What is seen of a way that is to be emptied.
#[derive(Clone, Copy, Debug, PartialEq, Eq)]
struct Way {
    can_evict: bool,
    evicted: Result<(), CoreError>,
    sends: bool,
    has_frame: bool,
    line_has_frame: bool,
    console: usize,
}

// What is seen of way 1 of set 3, and of line 3.
fn emptied(core: &mut CoreNode, out: &mut Outgoing) -> Way
    requires set { 3 < core.old.config.sets }
    requires way { 1 < core.old.config.ways }
{
    let can_evict = core.can_evict(3, 1);
    let evicted = core.evict(3, 1, out);
    Way {
        can_evict,
        evicted,
        sends: !out.is_empty(),
        has_frame: core.frame(3, 1).is_some(),
        line_has_frame: core.frame_of(LineAddr(3)).is_some(),
        console: core.console_len(),
    }
}

// The same of a core that has just begun.
fn emptied_at_first(alloc: Global) -> Result<Way, Fail> {
    let cfg = Config::new(1, 1, 4, 2, 0x8000_0000, 65_536)?;
    let mut core = CoreNode::start(alloc, &cfg, CoreId(0), 0x8000_0000)?;
    let mut out = Outgoing::new(alloc);
    Ok(emptied(&mut core, &mut out))
}

#[test]
fn an_empty_way_stays(rt: HostRuntime) -> Result<(), Fail> {
    let stays = Way {
        can_evict: false,
        evicted: Err(CoreError::Blocked),
        sends: false,
        has_frame: false,
        line_has_frame: false,
        console: 0,
    };
    assert_eq!(rt; emptied_at_first(rt.alloc())?, stays);
    Ok(())
}

// How an instruction ended.
#[derive(Clone, Copy, Debug, PartialEq, Eq)]
pub(crate) enum Done {
    Stepped,
    Asked,
    Committed,
    Failed,
}

// Executes one instruction.
pub(crate) fn exec(core: &mut CoreNode, code: &Code, out: &mut Outgoing) -> Done
    requires { code.now.settings ≡ core.old.config }
    ensures { core.new.config ≡ core.old.config }
{
    match core.exec(code, out) {
        Ok(Executed::Stepped) => Done::Stepped,
        Ok(Executed::Asked) => Done::Asked,
        Ok(Executed::Committed(_)) => Done::Committed,
        Err(_) => Done::Failed,
    }
}

// Executes, takes TID 1 and executes.
fn take_tid(core: &mut CoreNode, code: &Code, out: &mut Outgoing) -> (Done, bool, Done)
    requires { code.now.settings ≡ core.old.config }
{
    let first = exec(core, code, out);
    let granted = core.deliver(NodeId::Vendor, &Msg::TidGrant { tid: Tid(1) }, out);
    (first, granted.is_ok(), exec(core, code, out))
}

// A core that begins with this code.
pub(crate) fn begun(alloc: Global, code: &Code) -> Result<CoreNode, Fail>
    ensures { IfOk result (λ n. n.config ≡ code.now.settings) }
{
    let entry = code.entry(CoreId(0));
    Ok(CoreNode::start(alloc, code.config(), CoreId(0), entry)?)
}

// What a core does that begins with this image and executes, and what it sends.
fn executed(alloc: Global, image: &[u32]) -> Result<(Done, Outgoing), Fail> {
    let code = code_of(alloc, 1, 2, image)?;
    let mut core = begun(alloc, &code)?;
    let mut out = Outgoing::new(alloc);
    let done = exec(&mut core, &code, &mut out);
    Ok((done, out))
}

#[test]
fn a_load_asks_for_its_line(rt: HostRuntime) -> Result<(), Fail> {
    // lw x5,96(x0)
    let (done, out) = executed(rt.alloc(), &[0x0600_2283])?;
    assert_eq!(rt; done, Done::Asked);
    let request = Msg::LoadReq {
        line: LineAddr(3),
        after: Tid(0),
    };
    assert_eq!(rt;
        out.list.as_slice(),
        [(NodeId::Dir(DirId(1)), request)].as_slice()
    );
    Ok(())
}

// What a core does that begins with this image, executes, takes TID 1 and executes; and what it sends.
fn committed(alloc: Global, image: &[u32]) -> Result<((Done, bool, Done), Outgoing), Fail> {
    let code = code_of(alloc, 1, 2, image)?;
    let mut core = begun(alloc, &code)?;
    let mut out = Outgoing::new(alloc);
    let done = take_tid(&mut core, &code, &mut out);
    Ok((done, out))
}

#[test]
fn a_transaction_ends_and_commits(rt: HostRuntime) -> Result<(), Fail> {
    // ecall
    let (done, out) = committed(rt.alloc(), &[0x73])?;
    assert_eq!(rt; done, (Done::Stepped, true, Done::Committed));
    let tid = Tid(1);
    let sent = [
        (NodeId::Vendor, Msg::TidReq),
        (NodeId::Dir(DirId(0)), Msg::Skip { tid }),
        (NodeId::Dir(DirId(1)), Msg::Skip { tid }),
    ];
    assert_eq!(rt; out.list.as_slice(), sent.as_slice());
    Ok(())
}

// The number of useful evictions, and the first.
fn useful(core: &CoreNode, code: &Code) -> (usize, Option<(u16, u8)>)
    requires { code.now.settings ≡ core.now.config }
{
    (core.useful_evicts(code), core.useful_evict(code, 0))
}

// The same of a core that begins with this image.
fn useful_at_first(alloc: Global, image: &[u32]) -> Result<(usize, Option<(u16, u8)>), Fail> {
    let code = code_of(alloc, 1, 2, image)?;
    let core = begun(alloc, &code)?;
    Ok(useful(&core, &code))
}

#[test]
fn an_empty_cache_has_no_useful_eviction(rt: HostRuntime) -> Result<(), Fail> {
    // ecall
    assert_eq!(rt; useful_at_first(rt.alloc(), &[0x73])?, (0, None));
    Ok(())
}
