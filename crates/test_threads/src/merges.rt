// Small logs merged, and a few dozen entries in scrambled order.
ghost use Rattle.std.specs.Prelude.{◌≡◌, [], ◌∷◌, IfOk};
ghost use Rattle.stamp_merge.specs.Merging.{AreLogs};

use rules_apart::{Logged, Logs};
use stamp_merge::merge;
use std::alloc::Global;
use std::test::Fail;
use tcc_base::{Config, CoreId, List, NoMemory, NodeId};
use tcc_msg::{Event, Name};

const FIRST: Event = Event::Exec(CoreId(0));

const SECOND: Event = Event::Evict(CoreId(1), 0, 0);

const VENDOR: Event = Event::Deliver(Name {
    src: NodeId::Core(CoreId(0)),
    dst: NodeId::Vendor,
    seq: 0,
});

// The log of one event.
fn log_of_one(alloc: Global, stamp: u64, event: Event) -> Result<List<Logged>, NoMemory>
    ensures { IfOk result (λ log. log ≡ record { stamp = stamp; event = event } ∷ []) }
{
    let mut log = List::new(alloc);
    log.push(Logged { stamp, event })?;
    Ok(log)
}

// The logs of two cores and the vendor, with one event each, and of a directory that did nothing.
fn small_logs(alloc: Global, config: Config, stamps: [u64; 3]) -> Result<Logs, NoMemory>
    requires cores { config.cores ≡ 2 }
    requires dirs { config.dirs ≡ 1 }
    ensures { IfOk result (λ logs. AreLogs logs.config logs.by_node) }
{
    let mut by_node = List::new(alloc);
    by_node.push(log_of_one(alloc, stamps[0], FIRST)?)?;
    by_node.push(log_of_one(alloc, stamps[1], SECOND)?)?;
    by_node.push(List::new(alloc))?;
    by_node.push(log_of_one(alloc, stamps[2], VENDOR)?)?;
    Ok(Logs { config, by_node })
}

#[test]
fn events_stand_by_stamp_and_then_by_node(rt: HostRuntime) -> Result<(), Fail> {
    let config = Config::new(2, 1, 1, 1, 0, 32)?;
    for (stamps, expected) in [
        ([3, 2, 1], [VENDOR, SECOND, FIRST]),
        ([5, 5, 5], [FIRST, SECOND, VENDOR]),
        ([2, 1, 1], [SECOND, VENDOR, FIRST]),
        ([7, 9, 7], [FIRST, VENDOR, SECOND]),
        ([0, 1_000_000, 0], [FIRST, VENDOR, SECOND]),
    ] {
        let schedule = merge(rt.alloc(), &small_logs(rt.alloc(), config, stamps)?)?;
        assert_eq!(rt; schedule.config, config);
        assert_eq!(rt; schedule.events.items.as_slice(), expected.as_slice());
    }
    Ok(())
}

// The stamps of forty entries, each from 0 to 12 three times or four.
fn stamp(number: u8) -> u64 {
    (number as u64 * 7) % 13
}

// The logs of forty cores, with one event each, and of a directory and the vendor, which did nothing.
fn scrambled(alloc: Global, config: Config) -> Result<Logs, NoMemory>
    requires cores { config.cores ≡ 40 }
    requires dirs { config.dirs ≡ 1 }
    ensures { IfOk result (λ logs. AreLogs logs.config logs.by_node) }
{
    let mut by_node = List::new(alloc);
    for number in 0..40 {
        let log = log_of_one(alloc, stamp(number), Event::Exec(CoreId(number)))?;
        by_node.push(log)?;
    }
    by_node.push(List::new(alloc))?;
    by_node.push(List::new(alloc))?;
    Ok(Logs { config, by_node })
}

#[test]
fn entries_of_one_stamp_keep_their_order(rt: HostRuntime) -> Result<(), Fail> {
    let config = Config::new(40, 1, 1, 1, 0, 32)?;
    let logs = scrambled(rt.alloc(), config)?;
    let mut expected = Vec::new(rt.alloc());
    for value in 0..13 {
        for number in 0..40 {
            if stamp(number) == value {
                expected.push(Event::Exec(CoreId(number)))?;
            }
        }
    }
    let schedule = merge(rt.alloc(), &logs)?;
    assert_eq!(rt; schedule.events.items.as_slice(), expected.as_slice());
    Ok(())
}
