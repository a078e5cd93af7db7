// The one schedule that the logs of all nodes are together: their events by stamp, and at one stamp by node.
#![tactic(auto)]

ghost use Rattle.std.specs.Prelude.{◌≡◌, IfOk, map};
ghost use Rattle.std.specs.List.{flat_map};
ghost use Rattle.rules_apart.specs.Fitting.{IsMergeOf};
ghost use Rattle.stamp_merge.specs.Merging.{AreByStamp, AreLogs, MergeIsOne, MergedLogsRun};

mod counting;

use counting::by_counting;
use rules_apart::{Logged, Logs};
use std::alloc::{AllocError, Global};
use tcc_base::{List, NoMemory};
use tcc_msg::{Event, Schedule};

/// The entries of all logs, log after log, in memory that is taken once.
fn gathered(alloc: Global, logs: &[List<Logged>]) -> Result<Vec<Logged>, AllocError>
    ensures { IfOk result (λ entries. entries.items ≡ flat_map (λ log. log) logs.now) }
{
    let count = logs
        .iter()
        .map(|log| log.items.len())
        .fold(0, usize::saturating_add);
    let mut entries = Vec::with_capacity(alloc, count)?;
    for log in logs {
        entries.extend_from_slice(&log.items)?;
    }
    Ok(entries)
}

/// The events of entries, in their order.
fn events_of(alloc: Global, entries: &[Logged]) -> Result<Vec<Event>, AllocError>
    ensures { IfOk result (λ events. events.items ≡ map (λ entry. entry.event) entries.now) }
{
    entries.iter().map(|entry| entry.event).collect(alloc)
}

/// The events of all logs by stamp; those of one stamp in the order of their logs. Entries are compared, whatever their stamps are.
fn by_comparing(alloc: Global, logs: &[List<Logged>]) -> Result<Vec<Event>, AllocError>
    ensures { IfOk result (λ events. AreByStamp (flat_map (λ log. log) logs.now) events.items) }
{
    let mut entries = gathered(alloc, logs)?;
    entries.sort_by_key(|entry| entry.stamp)?;
    events_of(alloc, &entries)
}

/// The events of all logs by stamp; those of one stamp in the order of their logs.
fn by_stamp(alloc: Global, logs: &[List<Logged>]) -> Result<Vec<Event>, AllocError>
    ensures { IfOk result (λ events. AreByStamp (flat_map (λ log. log) logs.now) events.items) }
{
    match by_counting(alloc, logs)? {
        Some(events) => Ok(events),
        None => by_comparing(alloc, logs),
    }
}

/// The schedule that logs are together: the events of all of them by stamp, and those of one stamp in the order of their nodes.
/// Each node has its log, of its own events alone, and stamps rise along it. The logs stay as they are. The error is want of
/// memory: beside the logs there is room for the events, and for a u32 for each stamp up to the highest. Its time grows as the number
/// of entries and of stamps. With more than four stamps for each entry and a thousand, or with 2^32 entries or more, it compares: then
/// it has room for each entry twice, and its time grows no faster than n log n for n entries, and as n log m for m long logs.
pub fn merge(alloc: Global, logs: &Logs) -> Result<Schedule, NoMemory>
    requires logs { AreLogs logs.now.config logs.now.by_node }
    ensures config { IfOk result (λ schedule. schedule.config ≡ logs.now.config) }
    ensures merged { IfOk result (λ schedule. IsMergeOf logs.now.config logs.now.by_node schedule.events) }
{
    match by_stamp(alloc, &logs.by_node.items) {
        Ok(items) => Ok(Schedule {
            config: logs.config,
            events: List { items },
        }),
        Err(AllocError) => Err(NoMemory),
    }
}

/// The merge of logs that fit is a run of the machine from the start, and each node ends as its own log leaves it.
pub fn merged_logs_are_a_run()
    ensures { MergedLogsRun }
{}

/// Logs have one merge.
pub fn a_merge_is_one()
    ensures { MergeIsOne }
{}
