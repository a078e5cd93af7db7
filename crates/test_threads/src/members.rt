// A core, a directory and the vendor of a small machine, each by itself.
ghost use Rattle.std.specs.Prelude.{◌≡◌, IfOk};
ghost use Rattle.std.specs.Arc.{arc_value};
ghost use Rattle.rules_maps.specs.Bridge.{node_of};
ghost use Rattle.tcc_msg.specs.Plain.{msg_of};
ghost use Rattle.rules_apart.specs.Carried.{IsCarried};

use crate::images::loaded;
use apart_member::Member;
use image_load::Loaded;
use rv_code::Code;
use std::alloc::Global;
use std::sync::Arc;
use std::test::Fail;
use tcc_base::{Config, CoreId, DirId, NodeId, Tid};
use tcc_msg::{Event, Msg, Name, Outgoing};

const CORE: NodeId = NodeId::Core(CoreId(0));

// One core, one directory, and an image of one instruction: ecall.
fn start(alloc: Global) -> Result<Loaded, Fail>
    ensures { IfOk result (λ l. l.settings ≡ record { cores = 1; dirs = 1; sets = 4; ways = 1; base = 0; ram = 65536 }) }
{
    let config = Config::new(1, 1, 4, 1, 0, 65_536)?;
    loaded(alloc, &config, &[0x73, 0x00, 0x00, 0x00])
}

fn code(alloc: Global, loaded: &Loaded) -> Result<Arc<Code, Global>, Fail>
    ensures { IfOk result (λ c. arc_value c ≡ loaded.now) }
{
    let code = Code::new(alloc, loaded.copy()?)?;
    match Arc::new(alloc, code) {
        Ok(code) => Ok(code),
        Err(_) => Err("out of memory".into()),
    }
}

// A core of that machine does the first of its own events; how many messages it sends, and how many own events it has then.
fn acts_once(core: &mut Member, out: &mut Outgoing) -> Result<(usize, usize), Fail> {
    out.clear();
    if core.done() >= 4_194_304 {
        return Err("too many events".into());
    }
    let Some(event) = core.own_at(0) else {
        return Err("nothing to do".into());
    };
    core.act(event, None, out)?;
    Ok((out.len(), core.own_count()))
}

// Hands a member a message that its link carries; how many messages it sends, where it consumed that one.
fn tell(member: &mut Member, src: NodeId, msg: Msg, out: &mut Outgoing) -> Result<usize, Fail>
    requires { IsCarried member.old.code.settings (node_of src) (node_of member.old.node) (msg_of msg) }
{
    out.clear();
    if !member.takes(src, &msg) || member.done() >= 4_194_304 {
        return Err("not taken".into());
    }
    let name = Name {
        src,
        dst: member.node(),
        seq: 0,
    };
    if !member.act(Event::Deliver(name), Some(msg), out)? {
        return Err("not consumed".into());
    }
    Ok(out.len())
}

// A core asks the vendor for a TID.
fn ask_tid(vendor: &mut Member, out: &mut Outgoing) -> Result<usize, Fail>
    requires settings { vendor.old.code.settings ≡ record { cores = 1; dirs = 1; sets = 4; ways = 1; base = 0; ram = 65536 } }
    requires node { vendor.old.node ≡ NodeId.Vendor }
{
    tell(vendor, CORE, Msg::TidReq, out)
}

// A core asks the directory to be told when TID 1 is served.
fn ask_turn(dir: &mut Member, out: &mut Outgoing) -> Result<usize, Fail>
    requires settings { dir.old.code.settings ≡ record { cores = 1; dirs = 1; sets = 4; ways = 1; base = 0; ram = 65536 } }
    requires node { dir.old.node ≡ NodeId.Dir (record { 0 = 0 }) }
{
    tell(dir, CORE, Msg::Probe { tid: Tid(1) }, out)
}

#[test]
fn a_core_asks_for_a_tid(rt: HostRuntime) -> Result<(), Fail> {
    let alloc = rt.alloc();
    let loaded = start(alloc)?;
    let code = code(alloc, &loaded)?;
    let mut core = Member::core(alloc, code, CoreId(0))?;
    let mut out = Outgoing::new(alloc);
    let sent = acts_once(&mut core, &mut out)?;
    assert!(rt; sent == (1, 0));
    Ok(())
}

#[test]
fn a_directory_answers_a_probe(rt: HostRuntime) -> Result<(), Fail> {
    let alloc = rt.alloc();
    let loaded = start(alloc)?;
    let code = code(alloc, &loaded)?;
    let mut dir = Member::directory(alloc, code, &loaded, DirId(0))?;
    let mut out = Outgoing::new(alloc);
    let sent = ask_turn(&mut dir, &mut out)?;
    assert!(rt; sent == 1);
    Ok(())
}

#[test]
fn the_vendor_gives_a_tid(rt: HostRuntime) -> Result<(), Fail> {
    let alloc = rt.alloc();
    let loaded = start(alloc)?;
    let code = code(alloc, &loaded)?;
    let mut vendor = Member::vendor(code);
    let mut out = Outgoing::new(alloc);
    let sent = ask_tid(&mut vendor, &mut out)?;
    assert!(rt; sent == 1);
    Ok(())
}
