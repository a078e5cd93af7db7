// Machines of two cores on host threads, with ample memory.
ghost use Rattle.std.specs.Prelude.{◌≤◌};
ghost use Rattle.tcc_base.specs.Limits.{run_limit};

use crate::images::loaded;
use apart_run::run_threads;
use image_load::Loaded;
use std::alloc::Global;
use std::sync::Wait;
use std::test::Fail;
use std::thread::Threads;
use tcc_base::{Commit, Config, CoreId, DirId, NodeId};
use tcc_msg::{Event, Name};
use tcc_refine::Refined;
use tcc_replay::replay;
use tcc_workers::WorkPlan;
use tcc_world::OpenGate;

/// Halts at once.
const HALTS: [u8; 8] = [
    0x93, 0x08, 0xd0, 0x05, // addi x17,x0,93
    0x73, 0x00, 0x00, 0x00, // ecall, which halts
];

/// Stores a word, ends its transaction, and halts.
const STORES: [u8; 24] = [
    0x93, 0x02, 0x70, 0x00, // addi x5,x0,7
    0x37, 0x03, 0x00, 0x80, // lui x6,0x80000
    0x23, 0x20, 0x53, 0x04, // sw x5,64(x6)
    0x73, 0x00, 0x00, 0x00, // ecall, which ends the transaction
    0x93, 0x08, 0xd0, 0x05, // addi x17,x0,93
    0x73, 0x00, 0x00, 0x00, // ecall, which halts
];

/// An image in the memory of two cores and one directory.
fn executing(alloc: Global, image: &[u8]) -> Result<Loaded, Fail> {
    let config = Config::new(2, 1, 16, 2, 0x8000_0000, 65_536)?;
    loaded(alloc, &config, image)
}

fn exec(core: u8) -> Event {
    Event::Exec(CoreId(core))
}

/// The first message of a link.
fn deliver(src: NodeId, dst: NodeId) -> Event {
    Event::Deliver(Name { src, dst, seq: 0 })
}

/// Whether these are the commits of the same cores under the same TIDs.
fn alike(commits: &[Commit], others: &[Commit]) -> bool {
    commits.len() == others.len()
        && commits
            .iter()
            .zip(others)
            .all(|(a, b)| a.tid == b.tid && a.core == b.core)
}

/// Whether the machine is done, how many events it took and how many commits it has, and whether their replay gives the same commits.
fn observe(
    alloc: Global,
    loaded: &Loaded,
    refined: &Refined,
) -> Result<(bool, usize, usize, bool), Fail> {
    let system = refined.system();
    let taken = refined.taken();
    if taken.len() > 1000 {
        return Err("the machine took more events than it was asked for")?;
    }
    let again = replay(alloc, loaded, taken)?;
    Ok((
        system.done(),
        taken.len(),
        system.commits().len(),
        alike(system.commits(), again.system().commits()),
    ))
}

/// What comes of a plan's run of the image that stores.
fn observe_run<R: Threads + Wait + Sync>(
    rt: &R,
    alloc: Global,
    threads: u8,
    steps: u64,
) -> Result<(bool, usize, usize, bool), Fail>
    requires { (1 ≤ threads) × (threads ≤ 16) × (steps ≤ run_limit) }
{
    let loaded = executing(alloc, &STORES)?;
    let plan = WorkPlan {
        threads,
        steps,
        seed: 7,
        batch: 1,
    };
    let refined = run_threads(rt, alloc, &loaded, &plan, &OpenGate)?;
    observe(alloc, &loaded, &refined)
}

#[test]
fn threads_end_the_program_or_at_the_last_step(rt: HostRuntime) -> Result<(), Fail> {
    let (done, _, commits, same) = observe_run(&rt, rt.alloc(), 2, 1000)?;
    assert_eq!(rt; (done, commits, same), (true, 4, true));
    assert_eq!(rt; observe_run(&rt, rt.alloc(), 2, 0)?, (false, 0, 0, true));
    let (done, taken, _, same) = observe_run(&rt, rt.alloc(), 16, 21)?;
    assert_eq!(rt; (done, taken, same), (false, 21, true));
    Ok(())
}

#[test]
fn one_thread_decides_all_events(rt: HostRuntime) -> Result<(), Fail> {
    let [first, second, dir] = [
        NodeId::Core(CoreId(0)),
        NodeId::Core(CoreId(1)),
        NodeId::Dir(DirId(0)),
    ];
    let events = [
        exec(0),
        exec(1),
        exec(0),
        exec(1),
        deliver(second, NodeId::Vendor),
        deliver(NodeId::Vendor, second),
        deliver(first, NodeId::Vendor),
        deliver(NodeId::Vendor, first),
        exec(1),
        deliver(second, dir),
        exec(0),
        deliver(first, dir),
    ];
    let loaded = executing(rt.alloc(), &HALTS)?;
    for seed in [0, 1, 0xffff_ffff_ffff_ffff] {
        let plan = WorkPlan {
            threads: 1,
            steps: 1000,
            seed,
            batch: 1,
        };
        let refined = run_threads(&rt, rt.alloc(), &loaded, &plan, &OpenGate)?;
        assert!(rt; refined.taken() == events.as_slice());
    }
    Ok(())
}
