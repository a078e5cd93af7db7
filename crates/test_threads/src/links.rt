// A link from a core to the vendor. A hundred requests go over it, which is more than three of the queue's blocks hold; stamps tell them
// apart.
ghost use Rattle.std.specs.Prelude.{◌≡◌, ◌<◌, IfOk};
ghost use Rattle.rules_maps.specs.Nodes.{TidReq};
ghost use Rattle.net_links.specs.Linked.{MayCarry};

use net_links::{Inlet, Outlet, link};
use rules_apart::Mail;
use std::alloc::Global;
use std::sync::Wait;
use std::test::*;
use std::thread;
use std::thread::Threads;
use tcc_base::{Config, CoreId, NoMemory, NodeId};
use tcc_msg::Msg;

// The one core of a machine, and its vendor.
fn linked(alloc: Global) -> Result<(Outlet, Inlet), Fail>
    ensures one { IfOk result (λ p. p.0.link ≡ p.1.link) }
    ensures carried { IfOk result (λ p. MayCarry p.0.ends TidReq) }
{
    let config = Config::new(1, 1, 1, 1, 0, 32)?;
    Ok(link(alloc, &config, NodeId::Core(CoreId(0)), NodeId::Vendor)?)
}

fn send<R: Wait>(rt: &R, mut outlet: Outlet) -> Result<Outlet, NoMemory>
    requires { MayCarry outlet.ends TidReq }
    ensures { IfOk result (λ o. o.link ≡ outlet.link) }
{
    for stamp in 0..100 {
        outlet.push(
            rt,
            Mail {
                stamp,
                msg: Msg::TidReq,
            },
        )?;
    }
    Ok(outlet)
}

// Asks for a message as often as that, and counts those that come in order.
fn take<R: Wait>(rt: &R, mut inlet: Inlet, first: u64, times: u64) -> (Inlet, u64)
    ensures { result.0.link ≡ inlet.link }
{
    let mut next = first;
    for _ in 0..times {
        if let Some(mail) = inlet.pop(rt) {
            if mail.stamp == next {
                next = next.wrapping_add(1);
            }
        }
    }
    (inlet, next)
}

// The two ends at work in threads of their own.
fn trade<R: Threads + Wait + Sync>(
    rt: &R,
    outlet: Outlet,
    inlet: Inlet,
) -> (Result<Outlet, NoMemory>, (Inlet, u64))
    requires { MayCarry outlet.ends TidReq }
    ensures outlet { IfOk result.0 (λ o. o.link ≡ outlet.link) }
    ensures inlet { result.1.0.link ≡ inlet.link }
{
    thread::join(
        rt,
        move ||
            requires { MayCarry outlet.ends TidReq }
            ensures { IfOk result (λ o. o.link ≡ outlet.link) }
        { send(rt, outlet) },
        move ||
            ensures { result.0.link ≡ inlet.link }
        { take(rt, inlet, 0, 1000) },
    )
}

#[test]
fn messages_arrive_in_order(rt: HostRuntime) -> Result<(), Fail> {
    let (outlet, inlet) = linked(rt.alloc())?;
    let mut outlet = send(&rt, outlet)?;
    let (mut inlet, next) = take(&rt, inlet, 0, 70);
    assert_eq!(rt; next, 70);
    outlet.hear(&rt, &mut inlet);
    outlet.hear(&rt, &mut inlet);
    let (mut inlet, next) = take(&rt, inlet, next, 30);
    assert_eq!(rt; (next, inlet.pop(&rt)), (100, None));
    outlet.hear(&rt, &mut inlet);
    Ok(())
}

#[test]
fn the_ends_work_in_two_threads(rt: HostRuntime) -> Result<(), Fail> {
    let (outlet, inlet) = linked(rt.alloc())?;
    let (sent, (mut inlet, next)) = trade(&rt, outlet, inlet);
    let mut outlet = sent?;
    outlet.hear(&rt, &mut inlet);
    let (mut inlet, next) = take(&rt, inlet, next, 100);
    assert_eq!(rt; (next, inlet.pop(&rt)), (100, None));
    outlet.hear(&rt, &mut inlet);
    Ok(())
}
