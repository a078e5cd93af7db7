// Reports of machines with one bus after some events, and after those that a seed picks, letter by letter, with ample memory.
ghost use Rattle.std.specs.Prelude.{◌≡◌};

use super::loading::loaded;
use crate::loading::STORES_SEVEN_AND_HALTS;
use bus_tcc::{BusEvent, BusSystem};
use bus_tool::{bus_report, bus_run};
use image_load::Loaded;
use std::alloc::Global;
use std::test::Fail;
use tcc_base::CoreId;

/// One transaction that stores to two lines.
const STORES_TWICE: [u32; 5] = [
    0x8000_0337, // lui x6,0x80000
    0x04b3_2023, // sw x11,64(x6)
    0x06b3_2023, // sw x11,96(x6)
    0x05d0_0893, // addi x17,x0,93
    0x0000_0073, // ecall, which halts
];

/// What one core is after the first image, and memory.
const SEVEN_STORED: &str = "pc 80000014
reg 5 00000007
reg 6 80000000
reg 11 00000001
reg 17 0000005d
mem 80000040 00000007
";

/// Two cores that have taken the first image to its end.
const TWO_HALTED: &str = "core 0 halt 0
pc 80000014
reg 5 00000007
reg 6 80000000
reg 11 00000002
reg 17 0000005d
core 1 halt 1
pc 80000014
reg 5 00000007
reg 6 80000000
reg 10 00000001
reg 11 00000002
reg 17 0000005d
mem 80000040 00000007
";

/// The report after these events.
fn report_after(alloc: Global, loaded: &Loaded, events: &[BusEvent]) -> Result<String, Fail>
    requires { loaded.now.settings.dirs ≡ 1 }
{
    let mut bus = BusSystem::start(alloc, loaded)?;
    for &e in events {
        if bus.events() > 99 || bus.step(e).is_err() {
            return Err("an event was refused")?;
        }
    }
    Ok(bus_report(alloc, &bus)?)
}

const E0: BusEvent = BusEvent::Exec(CoreId(0));

const E1: BusEvent = BusEvent::Exec(CoreId(1));

const T0: BusEvent = BusEvent::Take(CoreId(0));

const T1: BusEvent = BusEvent::Take(CoreId(1));

#[test]
fn one_core_stores_and_halts(rt: HostRuntime) -> Result<(), Fail> {
    let alloc = rt.alloc();
    let loaded = loaded(alloc, [1, 16, 2], &STORES_SEVEN_AND_HALTS)?;
    let want = "tcc-bus 1
end open
events 0
core 0 run
pc 80000000
reg 11 00000001
";
    assert_eq!(rt; report_after(alloc, &loaded, &[])?.as_str(), want);
    let want = format!(in alloc;
        "tcc-bus 1\nend done\nevents 8\ncommit 1 0 4\ncommit 2 0 2\ncore 0 halt 0\n{SEVEN_STORED}"
    )?;
    assert_eq!(rt;
        report_after(alloc, &loaded, &[E0; 8])?.as_str(),
        want.as_str()
    );
    Ok(())
}

#[test]
fn a_set_of_one_way_is_emptied(rt: HostRuntime) -> Result<(), Fail> {
    let alloc = rt.alloc();
    let loaded = loaded(alloc, [1, 1, 1], &STORES_TWICE)?;
    let events = [E0, E0, E0, BusEvent::Evict(CoreId(0), 0, 0), E0, E0, E0];
    let want = "tcc-bus 1
end done
events 7
commit 1 0 5
core 0 halt 0
pc 80000010
reg 6 80000000
reg 11 00000001
reg 17 0000005d
mem 80000040 00000001
mem 80000060 00000001
";
    assert_eq!(rt; report_after(alloc, &loaded, &events)?.as_str(), want);
    Ok(())
}

#[test]
fn two_cores_take_turns_on_the_bus(rt: HostRuntime) -> Result<(), Fail> {
    let alloc = rt.alloc();
    let loaded = loaded(alloc, [2, 16, 2], &STORES_SEVEN_AND_HALTS)?;
    let events = [
        E0, E0, E1, E0, E1, E0, E0, E1, T1, E0, E1, E0, E1, E1, T0, E0, E1, E1,
    ];
    let commits = "commit 1 0 4\ncommit 2 1 4\ncommit 3 0 2\ncommit 4 1 2\n";
    let want = format!(in alloc; "tcc-bus 1\nend done\nevents 18\n{commits}{TWO_HALTED}")?;
    assert_eq!(rt;
        report_after(alloc, &loaded, &events)?.as_str(),
        want.as_str()
    );
    Ok(())
}

/// The report after so many events of a seed at most.
fn report_by(alloc: Global, loaded: &Loaded, seed: u64, steps: u16) -> Result<String, Fail>
    requires { loaded.now.settings.dirs ≡ 1 }
{
    let bus = bus_run(alloc, loaded, seed, u64::from(steps))?;
    Ok(bus_report(alloc, &bus)?)
}

#[test]
fn a_core_by_itself_ends_by_every_seed(rt: HostRuntime) -> Result<(), Fail> {
    let alloc = rt.alloc();
    let one = loaded(alloc, [1, 16, 2], &STORES_SEVEN_AND_HALTS)?;
    let want = format!(in alloc;
        "tcc-bus 1\nend done\nevents 8\ncommit 1 0 4\ncommit 2 0 2\ncore 0 halt 0\n{SEVEN_STORED}"
    )?;
    for seed in 0..3 {
        assert_eq!(rt; report_by(alloc, &one, seed, 100)?.as_str(), want.as_str());
    }
    let small = loaded(alloc, [1, 1, 1], &STORES_TWICE)?;
    let want = "tcc-bus 1
end done
events 7
commit 1 0 5
core 0 halt 0
pc 80000010
reg 6 80000000
reg 11 00000001
reg 17 0000005d
mem 80000040 00000001
mem 80000060 00000001
";
    assert_eq!(rt; report_by(alloc, &small, 0, 100)?.as_str(), want);
    Ok(())
}

#[test]
fn a_seed_decides_who_commits_first(rt: HostRuntime) -> Result<(), Fail> {
    let alloc = rt.alloc();
    let loaded = loaded(alloc, [2, 16, 2], &STORES_SEVEN_AND_HALTS)?;
    for (seed, commits) in [
        (
            1,
            "commit 1 0 4\ncommit 2 1 4\ncommit 3 0 2\ncommit 4 1 2\n",
        ),
        (
            2,
            "commit 1 1 4\ncommit 2 1 2\ncommit 3 0 4\ncommit 4 0 2\n",
        ),
    ] {
        let want = format!(in alloc; "tcc-bus 1\nend done\nevents 18\n{commits}{TWO_HALTED}")?;
        assert_eq!(rt;
            report_by(alloc, &loaded, seed, 100)?.as_str(),
            want.as_str()
        );
    }
    Ok(())
}

#[test]
fn a_run_ends_open_where_no_more_was_asked_for(rt: HostRuntime) -> Result<(), Fail> {
    let alloc = rt.alloc();
    let loaded = loaded(alloc, [2, 16, 2], &STORES_SEVEN_AND_HALTS)?;
    let want = "tcc-bus 1
end open
events 6
core 0 run
pc 80000000
reg 11 00000002
core 1 run
pc 80000000
reg 10 00000001
reg 11 00000002
";
    assert_eq!(rt; report_by(alloc, &loaded, 1, 6)?.as_str(), want);
    Ok(())
}
