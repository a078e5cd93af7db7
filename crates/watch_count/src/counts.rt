// The counts of a run, which grow event by event.
ghost use Rattle.std.specs.Prelude.{◌≡◌, ◌+◌, ◌≤◌, ◌^◌, Some, None, IfOk, OnOk, OnErr, All, length, map, unwrap_or, ◌++◌, string_bytes};
ghost use Rattle.std.specs.List.{flat_map, fold};
ghost use Rattle.std.specs.Ordering.{nat_cmp};
ghost use Rattle.std.specs.Map.{values_of, lookup};
ghost use Rattle.std.specs.BTreeMap.{is_at};
ghost use Rattle.rules_maps.specs.Bridge.{node_of};
ghost use Rattle.watch.specs.Plain.{fact_of};
ghost use Rattle.watch_count.specs.Tables.{core_after};
ghost use Rattle.watch_count.specs.KeptCores.{numbers_after};
ghost use Rattle.tcc_msg.specs.Plain.{msg_of};
ghost use Rattle.watch_count.specs.Messages.{kind_of as plain_kind_of, kind_place as plain_kind_place, messages_after, one_sent};
ghost use Rattle.watch_count.specs.Places.{nothing_there, line_of as plain_line_of, line_after};
ghost use Rattle.watch_count.specs.Places.{no_conflict, conflict_of as plain_conflict_of, conflict_after};
ghost use Rattle.watch_count.specs.Sizes.{core_size, messages_size, line_size, conflict_size, weight as plain_weight};
ghost use Rattle.watch_count.specs.Text.{count_text, entry_conflict, entry_line, tables_text};
ghost use Rattle.watch_count.specs.Totals.{all_cores as plain_all_cores};
ghost use Rattle.watch_count.specs.Csv.{core_cells, csv_row, csv_text};
ghost use Rattle.watch_count.specs.Counts.{core_taking, core_of as plain_core_of, changed, changed_if, message_sent};
ghost use Rattle.watch_count.specs.Counts.{kept_changed, kept_changed_if, conflict_cmp};
ghost use Rattle.watch_count.specs.Counts.{nothing_counted, counted, event_begun, event_counted};

use crate::cells::{
    push_cell, push_core_cells, push_csv_names, push_end_cell, push_messages_cells, push_seed,
    push_settings,
};
use crate::kept::KeptCore;
use crate::messages::{MessageCounts, kind_of, kind_place};
use crate::places::{Conflict, ConflictCounts, LineCounts, conflict_of, line_of};
use crate::texts::{push_conflicts, push_lines, push_messages, push_tables};
use crate::totals::{all_cores, all_messages};
use report_text::{push_end, push_events};
use schedule_text::push_config;
use std::alloc::{AllocError, Global};
use std::collections::BTreeMap;
use std::marker::Model;
use tcc_base::{Config, NoMemory, NodeId};
use tcc_msg::Msg;
use watch::Fact;

/// How often what happened in the events so far: by core, by kind of message, by line, and by conflict.
#[derive(Debug, Drop)]
pub struct Counts {
    pub(crate) cores: Vec<KeptCore>,
    pub(crate) messages: [MessageCounts; 15],
    pub(crate) lines: BTreeMap<u32, LineCounts>,
    pub(crate) conflicts: BTreeMap<Conflict, ConflictCounts>,
    /// How many events have come.
    pub(crate) events: u64,
    /// No number is above this.
    pub(crate) bound: u64,
}

impl Model for Counts {
    ghost use Rattle.watch_count.specs.Counts.{Counts as Numbers};
    ghost use Rattle.watch_count.specs.CountsInside.{counts_of, IsInside};

    ghost Value = { Numbers };

    ghost view = { counts_of };

    ghost invariant = { IsInside };
}

/// No number comes above this.
pub(crate) const LIMIT: u64 = 72_057_594_037_927_936;

/// The number of a core.
fn taker(actor: NodeId) -> Option<usize>
    ensures { result ≡ core_taking (node_of actor) }
{
    match actor {
        NodeId::Core(core) => Some(core.0 as usize),
        _ => None,
    }
}

/// The core that a fact counts for.
fn core_of(actor: NodeId, fact: &Fact) -> Option<usize>
    ensures { result ≡ plain_core_of (node_of actor) (fact_of fact.now) }
{
    match fact {
        Fact::Did { core, .. } => Some(core.0 as usize),
        Fact::Missed { core, .. } => Some(core.0 as usize),
        Fact::Overflowed { core, .. } => Some(core.0 as usize),
        Fact::Evicted { core, .. } => Some(core.0 as usize),
        Fact::Took(Msg::Fill { .. }) => taker(actor),
        Fact::Violated { core, .. } => Some(core.0 as usize),
        Fact::GaveUp { core, .. } => Some(core.0 as usize),
        Fact::Committed { core, .. } => Some(core.0 as usize),
        Fact::CameTo(core, _) => Some(core.0 as usize),
        _ => None,
    }
}

/// What a fact can add to a number at most.
#[tactic(auto, unfolding(crate::specs::Sizes::weight))]
fn weight(fact: &Fact) -> u64
    ensures { result ≡ plain_weight (fact_of fact.now) }
{
    match fact {
        Fact::Violated { lost, .. } => *lost as u64 + 5,
        Fact::Committed { n, .. } => *n as u64 + 5,
        _ => 5,
    }
}

/// A fact of an event, after so many events with that one.
fn count_core(cores: &mut [KeptCore], events: u64, actor: NodeId, fact: &Fact)
    requires small { All (λ c. core_size c ≤ 2 ^ 62) (map (numbers_after events) cores.old) }
    requires since { All (λ k. k.since ≤ events) cores.old }
    ensures counts { map (numbers_after events) cores.new
        ≡ changed_if (plain_core_of (node_of actor) (fact_of fact.now)) (core_after (fact_of fact.now))
        (map (numbers_after events) cores.old) }
    ensures since { All (λ k. k.since ≤ events) cores.new }
{
    if let Some(place) = core_of(actor, fact) {
        if place < cores.len() {
            cores[place].count(events, fact);
        }
    }
}

fn count_message(messages: &mut [MessageCounts; 15], fact: &Fact)
    requires { All (λ c. messages_size c ≤ 2 ^ 62) messages.old }
    ensures { messages.new ≡ changed_if (plain_kind_of (fact_of fact.now)) (messages_after (fact_of fact.now)) messages.old }
{
    if let Some(place) = kind_of(fact) {
        if place < messages.len() {
            messages[place].count(fact);
        }
    }
}

#[tactic(auto, unfolding(crate::specs::Sizes::messages_size))]
fn count_sent(messages: &mut [MessageCounts; 15], msg: &Msg)
    requires { All (λ c. messages_size c ≤ 2 ^ 62) messages.old }
    ensures { messages.new ≡ changed (plain_kind_place (msg_of msg.now)) one_sent messages.old }
{
    let place = kind_place(msg);
    if place < messages.len() {
        messages[place].sent += 1;
    }
}

/// What is counted of a line.
fn line_counts(lines: &BTreeMap<u32, LineCounts>, line: u32) -> LineCounts
    ensures { result ≡ unwrap_or (lookup (is_at (nat_cmp line)) lines.now.entries) nothing_there }
{
    match lines.get(&line) {
        Some(counts) => *counts,
        None => LineCounts::nothing(),
    }
}

#[tactic(auto, unfolding(crate::specs::Counts::kept_changed))]
fn count_at_line(
    lines: &mut BTreeMap<u32, LineCounts>,
    line: u32,
    fact: &Fact,
) -> Result<(), NoMemory>
    requires { All (λ n. line_size n ≤ 2 ^ 62) (values_of lines.old.entries) }
    ensures counted { OnOk result (lines.new.entries
        ≡ kept_changed nat_cmp nothing_there line (line_after (fact_of fact.now)) lines.old.entries) }
    ensures unchanged { OnErr result (lines.new.entries ≡ lines.old.entries) }
{
    let mut counts = line_counts(lines, line);
    counts.count(fact);
    match lines.insert(line, counts) {
        Ok(_) => Ok(()),
        Err(_) => Err(NoMemory),
    }
}

fn count_line(lines: &mut BTreeMap<u32, LineCounts>, fact: &Fact) -> Result<(), NoMemory>
    requires { All (λ n. line_size n ≤ 2 ^ 62) (values_of lines.old.entries) }
    ensures counted { OnOk result (lines.new.entries
        ≡ kept_changed_if nat_cmp nothing_there (plain_line_of (fact_of fact.now)) (line_after (fact_of fact.now)) lines.old.entries) }
    ensures unchanged { OnErr result (lines.new.entries ≡ lines.old.entries) }
{
    match line_of(fact) {
        Some(line) => count_at_line(lines, line, fact),
        None => Ok(()),
    }
}

/// What is counted of a conflict.
fn conflict_counts(
    conflicts: &BTreeMap<Conflict, ConflictCounts>,
    conflict: Conflict,
) -> ConflictCounts
    ensures { result ≡ unwrap_or (lookup (is_at (conflict_cmp conflict)) conflicts.now.entries) no_conflict }
{
    match conflicts.get(&conflict) {
        Some(counts) => *counts,
        None => ConflictCounts::nothing(),
    }
}

#[tactic(auto, unfolding(crate::specs::Counts::kept_changed))]
fn count_at_conflict(
    conflicts: &mut BTreeMap<Conflict, ConflictCounts>,
    conflict: Conflict,
    fact: &Fact,
) -> Result<(), NoMemory>
    requires { All (λ n. conflict_size n ≤ 2 ^ 62) (values_of conflicts.old.entries) }
    ensures counted { OnOk result (conflicts.new.entries
        ≡ kept_changed conflict_cmp no_conflict conflict (conflict_after (fact_of fact.now)) conflicts.old.entries) }
    ensures unchanged { OnErr result (conflicts.new.entries ≡ conflicts.old.entries) }
{
    let mut counts = conflict_counts(conflicts, conflict);
    counts.count(fact);
    match conflicts.insert(conflict, counts) {
        Ok(_) => Ok(()),
        Err(_) => Err(NoMemory),
    }
}

fn count_conflict(
    conflicts: &mut BTreeMap<Conflict, ConflictCounts>,
    fact: &Fact,
) -> Result<(), NoMemory>
    requires { All (λ n. conflict_size n ≤ 2 ^ 62) (values_of conflicts.old.entries) }
    ensures counted { OnOk result (conflicts.new.entries
        ≡ kept_changed_if conflict_cmp no_conflict (plain_conflict_of (fact_of fact.now)) (conflict_after (fact_of fact.now))
        conflicts.old.entries) }
    ensures unchanged { OnErr result (conflicts.new.entries ≡ conflicts.old.entries) }
{
    match conflict_of(fact) {
        Some(conflict) => count_at_conflict(conflicts, conflict, fact),
        None => Ok(()),
    }
}

impl Counts {
    /// Nothing has happened. Takes memory for the cores.
    pub fn new(alloc: Global, config: &Config) -> Result<Counts, NoMemory>
        ensures { IfOk result (λ c. c ≡ nothing_counted config.now.cores) }
    {
        let mut cores = Vec::with_capacity(alloc, config.cores() as usize).map_err(|_| NoMemory)?;
        for _ in 0..config.cores() {
            cores.push(KeptCore::nothing()).map_err(|_| NoMemory)?;
        }
        Ok(Counts {
            cores,
            messages: [MessageCounts::nothing(); 15],
            lines: BTreeMap::new(alloc),
            conflicts: BTreeMap::new(alloc),
            events: 0,
            bound: 0,
        })
    }

    /// One fact of an event of this node.
    fn count(&mut self, actor: NodeId, fact: &Fact) -> Result<(), NoMemory>
        requires { self.old.bound + plain_weight (fact_of fact.now) ≤ 2 ^ 56 }
        ensures { OnOk result (self.new ≡ counted (node_of actor) (fact_of fact.now) self.old) }
    {
        self.bound += weight(fact);
        count_core(&mut self.cores, self.events, actor, fact);
        count_message(&mut self.messages, fact);
        count_line(&mut self.lines, fact)?;
        count_conflict(&mut self.conflicts, fact)
    }

    fn begin_event(&mut self)
        requires { self.old.bound + 1 ≤ 2 ^ 56 }
        ensures { self.new ≡ event_begun self.old }
    {
        self.bound += 1;
        self.events += 1;
    }

    /// An event of this node, with its facts. It fails for want of memory, and where a number could come above 2^56, to which no run of
    /// 2^40 events comes whose events have at most 10,000 facts on average. Some of the facts may be counted then and others not, so
    /// the counts are of no use any more. Takes constant time for each fact, but for the logarithm of the lines and conflicts so far.
    pub fn event(&mut self, actor: NodeId, facts: &[Fact]) -> Result<(), NoMemory>
        ensures { OnOk result (self.new ≡ event_counted (node_of actor) (map fact_of facts.now) self.old) }
    {
        self.begin()?;
        for fact in facts {
            self.fact(actor, fact)?;
        }
        Ok(())
    }

    /// An event of whichever node comes: it counts in the phase that each core is in before it. It fails where a number could come above
    /// 2^56, and then nothing has changed. Takes constant time. With `fact` for each of its facts it is `event`.
    pub fn begin(&mut self) -> Result<(), NoMemory>
        ensures { OnOk result (self.new ≡ event_begun self.old) }
    {
        if self.bound >= LIMIT {
            return Err(NoMemory);
        }
        self.begin_event();
        Ok(())
    }

    /// One more fact of the event that came last, which is one of this node. It fails for want of memory, and where a number could come
    /// above 2^56; the counts are of no use then. Takes constant time, but for the logarithm of the lines and conflicts so far.
    pub fn fact(&mut self, actor: NodeId, fact: &Fact) -> Result<(), NoMemory>
        ensures { OnOk result (self.new ≡ counted (node_of actor) (fact_of fact.now) self.old) }
    {
        if LIMIT - self.bound < weight(fact) {
            return Err(NoMemory);
        }
        self.count(actor, fact)
    }

    /// A message that was sent.
    fn message(&mut self, msg: &Msg) -> Result<(), NoMemory>
        ensures { OnOk result (self.new ≡ message_sent self.old (msg_of msg.now)) }
    {
        if LIMIT - self.bound < 5 {
            return Err(NoMemory);
        }
        self.bound += 5;
        count_sent(&mut self.messages, msg);
        Ok(())
    }

    /// Messages that the event sent that came last, in whatever order: what they add depends on their kinds alone. It fails where a number
    /// could come above 2^56; the counts are of no use then. Takes constant time for each. `fact` with `Fact::Sent` of each does the same.
    pub fn sent(&mut self, messages: &[(NodeId, Msg)]) -> Result<(), NoMemory>
        ensures { OnOk result (self.new ≡ fold message_sent self.old (map (λ m. msg_of m.1) messages.now)) }
    {
        for (_, msg) in messages {
            self.message(msg)?;
        }
        Ok(())
    }

    /// Appends the five tables. After want of memory a part of them may stand there.
    pub fn push_tables(&self, text: &mut String) -> Result<(), AllocError>
        ensures { OnOk result (string_bytes text.new ≡ string_bytes text.old ++ tables_text self.now.cores) }
    {
        push_tables(text, &self.cores, self.events)
    }

    /// Appends the lines of lines of memory. After want of memory a part of them may stand there.
    pub fn push_lines(&self, text: &mut String) -> Result<(), AllocError>
        ensures { OnOk result (string_bytes text.new ≡ string_bytes text.old ++ flat_map entry_line self.now.lines) }
    {
        push_lines(text, &self.lines)
    }

    /// Appends the lines of conflicts. After want of memory a part of them may stand there.
    pub fn push_conflicts(&self, text: &mut String) -> Result<(), AllocError>
        ensures { OnOk result (string_bytes text.new ≡ string_bytes text.old ++ flat_map entry_conflict self.now.conflicts) }
    {
        push_conflicts(text, &self.conflicts)
    }

    /// Appends the numbers of all cores together in the five tables, each with the comma that stands before it. After want of memory a
    /// part of them may stand there.
    pub fn push_table_cells(&self, text: &mut String) -> Result<(), AllocError>
        ensures { OnOk result (string_bytes text.new ≡ string_bytes text.old ++ core_cells (plain_all_cores self.now.cores)) }
    {
        push_core_cells(text, &all_cores(&self.cores, self.events))
    }

    #[tactic(auto, unfolding(crate::specs::Text::count_text))]
    fn push_all(
        &self,
        text: &mut String,
        config: &Config,
        done: bool,
        events: u64,
    ) -> Result<(), AllocError>
        ensures { OnOk result (string_bytes text.new ≡ string_bytes text.old ++ count_text config.now done events self.now) }
    {
        text.push_str("tcc-count 1\n")?;
        push_config(text, config)?;
        push_tables(text, &self.cores, self.events)?;
        push_messages(text, &self.messages)?;
        push_lines(text, &self.lines)?;
        push_conflicts(text, &self.conflicts)?;
        push_end(text, done)?;
        push_events(text, events)
    }

    #[tactic(auto, unfolding(crate::specs::Csv::csv_row))]
    fn push_row(
        &self,
        text: &mut String,
        config: &Config,
        seed: Option<(u64, u64)>,
        done: bool,
        events: u64,
    ) -> Result<(), AllocError>
        ensures { OnOk result (string_bytes text.new ≡ string_bytes text.old ++ csv_row config.now seed done events self.now) }
    {
        text.push_str("1")?;
        push_settings(text, config)?;
        push_seed(text, seed)?;
        push_end_cell(text, done)?;
        push_cell(text, events)?;
        push_core_cells(text, &all_cores(&self.cores, self.events))?;
        push_messages_cells(text, &all_messages(&self.messages))?;
        text.push_str("\n")
    }

    /// Appends the text of the counts: the settings, the five tables, the kinds of message, the lines, the conflicts, and whether the
    /// run is done and how many events it took, as the caller says. Takes time for each byte that it writes. After want of memory a part
    /// of it may stand there.
    pub fn push_text(
        &self,
        text: &mut String,
        config: &Config,
        done: bool,
        events: u64,
    ) -> Result<(), NoMemory>
        ensures { OnOk result (string_bytes text.new ≡ string_bytes text.old ++ count_text config.now done events self.now) }
    {
        self.push_all(text, config, done, events)
            .map_err(|_| NoMemory)
    }

    /// Appends the totals as a row of a table: the settings, the seed and the number of steps where the run has them, how it ended, and the
    /// numbers of all cores and of all kinds of message. After want of memory a part of it may stand there.
    pub fn push_csv_row(
        &self,
        text: &mut String,
        config: &Config,
        seed: Option<(u64, u64)>,
        done: bool,
        events: u64,
    ) -> Result<(), NoMemory>
        ensures { OnOk result (string_bytes text.new ≡ string_bytes text.old ++ csv_row config.now seed done events self.now) }
    {
        self.push_row(text, config, seed, done, events)
            .map_err(|_| NoMemory)
    }

    /// Appends the row of the names of the columns, and `push_csv_row`. After want of memory a part of them may stand there.
    #[tactic(auto, unfolding(crate::specs::Csv::csv_text))]
    pub fn push_csv(
        &self,
        text: &mut String,
        config: &Config,
        seed: Option<(u64, u64)>,
        done: bool,
        events: u64,
    ) -> Result<(), NoMemory>
        ensures { OnOk result (string_bytes text.new ≡ string_bytes text.old ++ csv_text config.now seed done events self.now) }
    {
        push_csv_names(text).map_err(|_| NoMemory)?;
        self.push_csv_row(text, config, seed, done, events)
    }
}
