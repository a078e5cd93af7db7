// Counts that go on from numbers.
ghost use Rattle.std.specs.Prelude.{◌≡◌, ◌≤◌, ◌↔◌, All, IfOk, IfSome, IsSome, IsTrue, map};
ghost use Rattle.std.specs.List.{sum};
ghost use Rattle.std.specs.Map.{values_of};
ghost use Rattle.watch_count.specs.CountsInside.{IsKept};
ghost use Rattle.watch_count.specs.KeptCores.{numbers_after};
ghost use Rattle.watch_count.specs.Sizes.{core_size, messages_size, line_size, conflict_size};

use crate::counts::{Counts, LIMIT};
use crate::kept::KeptCore;
use crate::messages::MessageCounts;
use crate::places::{Conflict, ConflictCounts, LineCounts};
use crate::tables::CoreCounts;
use std::alloc::Global;
use std::collections::BTreeMap;
use tcc_base::NoMemory;

/// Whether these numbers together are at most this.
fn fits(numbers: &[u64], bound: u64) -> bool
    ensures { IsTrue result ↔ (sum numbers.now ≤ bound) }
{
    let mut left = bound;
    for number in numbers {
        if *number > left {
            return false;
        }
        left -= *number;
    }
    true
}

/// Whether the tables of a core's numbers are together at most this, but for its longest row of violations.
fn core_fits(core: &CoreCounts, bound: u64) -> bool
    ensures { IsTrue result ↔ (core_size core.now ≤ bound) }
{
    let attempts = &core.attempts;
    let instructions = &core.instructions;
    let accesses = &core.accesses;
    let evictions = &core.evictions;
    let phases = &core.phases;
    let numbers = [
        attempts.begun,
        attempts.committed,
        attempts.violated,
        attempts.still_open,
        attempts.unbroken,
        attempts.gave_up,
        instructions.executed,
        instructions.committed,
        instructions.lost,
        instructions.still_open,
        accesses.loads,
        accesses.stores,
        accesses.changes,
        accesses.misses,
        accesses.fills,
        accesses.overflows,
        evictions.clean,
        evictions.dirty,
        evictions.modified,
        phases.running,
        phases.await_tid,
        phases.doomed_tid,
        phases.probing,
        phases.ready,
        phases.overflowing,
        phases.solo,
        phases.halted,
    ];
    fits(&numbers, bound)
}

fn cores_fit(cores: &[CoreCounts], bound: u64) -> bool
    ensures { IsTrue result ↔ All (λ x. core_size x ≤ bound) cores.now }
{
    for core in cores {
        if !core_fits(core, bound) {
            return false;
        }
    }
    true
}

#[tactic(auto, unfolding(crate::specs::Sizes::messages_size))]
fn message_fits(counts: &MessageCounts, bound: u64) -> bool
    ensures { IsTrue result ↔ (messages_size counts.now ≤ bound) }
{
    fits(
        &[counts.sent, counts.took, counts.dropped, counts.asked],
        bound,
    )
}

fn messages_fit(messages: &[MessageCounts; 15], bound: u64) -> bool
    ensures { IsTrue result ↔ All (λ x. messages_size x ≤ bound) messages.now }
{
    for counts in messages {
        if !message_fits(counts, bound) {
            return false;
        }
    }
    true
}

#[tactic(auto, unfolding(crate::specs::Sizes::line_size))]
fn line_fits(counts: &LineCounts, bound: u64) -> bool
    ensures { IsTrue result ↔ (line_size counts.now ≤ bound) }
{
    fits(
        &[
            counts.misses,
            counts.invalidations,
            counts.violations,
            counts.lost,
        ],
        bound,
    )
}

fn lines_fit(lines: &BTreeMap<u32, LineCounts>, bound: u64) -> bool
    ensures { IsTrue result ↔ All (λ x. line_size x ≤ bound) (values_of lines.now.entries) }
{
    for (_, counts) in lines {
        if !line_fits(counts, bound) {
            return false;
        }
    }
    true
}

#[tactic(auto, unfolding(crate::specs::Sizes::conflict_size))]
fn conflict_fits(counts: &ConflictCounts, bound: u64) -> bool
    ensures { IsTrue result ↔ (conflict_size counts.now ≤ bound) }
{
    fits(&[counts.violations, counts.lost], bound)
}

fn conflicts_fit(conflicts: &BTreeMap<Conflict, ConflictCounts>, bound: u64) -> bool
    ensures { IsTrue result ↔ All (λ x. conflict_size x ≤ bound) (values_of conflicts.now.entries) }
{
    for (_, counts) in conflicts {
        if !conflict_fits(counts, bound) {
            return false;
        }
    }
    true
}

/// Whether counts can go on from these numbers.
fn are_kept(
    cores: &[CoreCounts],
    messages: &[MessageCounts; 15],
    lines: &BTreeMap<u32, LineCounts>,
    conflicts: &BTreeMap<Conflict, ConflictCounts>,
    bound: u64,
) -> bool
    ensures { IsTrue result ↔ IsKept (record {
      cores = cores.now;
      messages = messages.now;
      lines = lines.now.entries;
      conflicts = conflicts.now.entries;
      bound = bound;
    }) }
{
    bound <= LIMIT
        && cores.len() <= 64
        && cores_fit(cores, bound)
        && messages_fit(messages, bound)
        && lines_fit(lines, bound)
        && conflicts_fit(conflicts, bound)
}

/// What is kept of cores with these numbers before any further event.
fn kept_cores(alloc: Global, cores: &[CoreCounts]) -> Result<Vec<KeptCore>, NoMemory>
    ensures numbers { IfOk result (λ ks. map (numbers_after 0) ks.items ≡ cores.now) }
    ensures since { IfOk result (λ ks. All (λ k. k.since ≤ 0) ks.items) }
{
    let mut kept = Vec::with_capacity(alloc, cores.len()).map_err(|_| NoMemory)?;
    for core in cores {
        let settled = KeptCore {
            counts: *core,
            since: 0,
        };
        kept.push(settled).map_err(|_| NoMemory)?;
    }
    Ok(kept)
}

impl Counts {
    /// The counts with these numbers, which go on from them; `None` exactly where some are above the bound (all of a core together, but for
    /// its longest row of violations; all of a kind of message, of a line, and of a conflict), where the bound is above 2^56, and where
    /// there are more than 64 cores. Takes time for each core, line and conflict, and memory for the cores.
    pub fn restored(
        alloc: Global,
        cores: &[CoreCounts],
        messages: [MessageCounts; 15],
        lines: BTreeMap<u32, LineCounts>,
        conflicts: BTreeMap<Conflict, ConflictCounts>,
        bound: u64,
    ) -> Result<Option<Counts>, NoMemory>
        ensures kept { IfOk result (λ r. IsSome r ↔ IsKept (record {
          cores = cores.now;
          messages = messages;
          lines = lines.entries;
          conflicts = conflicts.entries;
          bound = bound;
        })) }
        ensures counts { IfOk result (λ r. IfSome r (λ c. c ≡ record {
          cores = cores.now;
          messages = messages;
          lines = lines.entries;
          conflicts = conflicts.entries;
          bound = bound;
        })) }
    {
        if !are_kept(cores, &messages, &lines, &conflicts, bound) {
            return Ok(None);
        }
        let kept = kept_cores(alloc, cores)?;
        Ok(Some(Counts {
            cores: kept,
            messages,
            lines,
            conflicts,
            events: 0,
            bound,
        }))
    }
}
