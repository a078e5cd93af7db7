// The counts of a run, which grow event by event.
ghost use Rattle.std.specs.Prelude.{◌≡◌, ◌-◌, ◌++◌, [], IfOk, OnOk, length, map, string_bytes};
ghost use Rattle.rules_maps.specs.Nodes.{Core};
ghost use Rattle.bus_watch.specs.Facts.{SentLine, TookPacket};
ghost use Rattle.bus_watch.specs.Plain.{bus_fact_of};
ghost use Rattle.bus_tcc.specs.Packets.{packet_line_of};
ghost use Rattle.watch_count.specs.Counts.{all_counted, counted};
ghost use Rattle.bus_count.specs.Counts.{all_bus_counted, as_common, bus_counted, bus_event_begun, bus_event_counted};
ghost use Rattle.bus_count.specs.Counts.{invalidation, lines_after, nothing_on_bus};
ghost use Rattle.bus_count.specs.Csv.{bus_csv_text};
ghost use Rattle.bus_count.specs.Text.{bus_count_text};

use crate::cells::{push_names, push_packets_cells, push_settings};
use crate::packets::{PacketCounts, push_packets};
use bus_trace::push_bus_config;
use bus_watch::{BusFact, Holder};
use report_text::{push_end, push_events};
use std::alloc::{AllocError, Global};
use std::marker::Model;
use tcc_base::{Config, CoreId, List, NoMemory, NodeId, Tagged, Tid};
use tcc_msg::Msg;
use watch::Fact;
use watch_count::{Counts, push_cell, push_end_cell, push_seed};

/// How often what happened in the events so far: by core, by line, by conflict, and of packets.
#[derive(Debug, Drop)]
pub struct BusCounts {
    common: Counts,
    packets: PacketCounts,
    /// The lines of the packet that was sent last.
    lines: List<Tagged>,
}

impl Model for BusCounts {
    ghost use Rattle.bus_count.specs.Counts.{BusCounts as Numbers};
    ghost use Rattle.bus_count.specs.Inside.{bus_counts_of};

    ghost Value = { Numbers };

    ghost view = { bus_counts_of };
}

/// A packet with this line is taken.
fn count_invalidated(
    common: &mut Counts,
    core: CoreId,
    tid: Tid,
    line: &Tagged,
) -> Result<(), NoMemory>
    ensures { OnOk result (common.new ≡ counted (Core core.0) (invalidation tid.0 (packet_line_of line.now)) common.old) }
{
    let msg = Msg::Inv {
        line: line.line,
        mask: line.mask,
        tid,
    };
    common.fact(NodeId::Core(core), &Fact::Took(msg))
}

/// A packet with these lines is taken.
fn count_taken(
    common: &mut Counts,
    core: CoreId,
    tid: Tid,
    lines: &[Tagged],
) -> Result<(), NoMemory>
    ensures { OnOk result (common.new
        ≡ all_counted (Core core.0) (as_common (map packet_line_of lines.now) (TookPacket tid.0)) common.old) }
{
    for line in lines {
        count_invalidated(common, core, tid, line)?;
    }
    Ok(())
}

/// What a fact of this core adds to what is counted as on the machine with directories.
#[tactic(auto, unfolding(watch_count::specs::Counts::all_counted))]
fn count_common(
    common: &mut Counts,
    core: CoreId,
    fact: &BusFact,
    lines: &[Tagged],
) -> Result<(), NoMemory>
    ensures { OnOk result (common.new
        ≡ all_counted (Core core.0) (as_common (map packet_line_of lines.now) (bus_fact_of fact.now)) common.old) }
{
    match fact {
        BusFact::Common(fact) => common.fact(NodeId::Core(core), fact),
        BusFact::TookPacket(tid) => count_taken(common, core, *tid, lines),
        BusFact::HeldBy(_) => Ok(()),
        BusFact::SentLine(_) => Ok(()),
    }
}

/// The lines of the packet that was sent last, after one more fact.
#[tactic(auto, unfolding(crate::specs::Counts::lines_after))]
fn note_lines(lines: &mut List<Tagged>, fact: &BusFact) -> Result<(), NoMemory>
    ensures { OnOk result (map packet_line_of lines.new ≡ lines_after (bus_fact_of fact.now) (map packet_line_of lines.old)) }
{
    match fact {
        BusFact::HeldBy(Holder::Packet(_)) => {
            lines.items.clear();
            Ok(())
        }
        BusFact::SentLine(line) => lines.push(*line),
        BusFact::HeldBy(Holder::Nobody) => Ok(()),
        BusFact::HeldBy(Holder::Core(_)) => Ok(()),
        BusFact::Common(_) => Ok(()),
        BusFact::TookPacket(_) => Ok(()),
    }
}

impl BusCounts {
    /// Nothing has happened. Takes memory for the cores.
    #[tactic(auto, unfolding(crate::specs::Counts::nothing_on_bus))]
    pub fn new(alloc: Global, config: &Config) -> Result<BusCounts, NoMemory>
        ensures { IfOk result (λ c. c ≡ nothing_on_bus config.now.cores) }
    {
        Ok(BusCounts {
            common: Counts::new(alloc, config)?,
            packets: PacketCounts {
                sent: 0,
                took: 0,
                left: 0,
            },
            lines: List::new(alloc),
        })
    }

    /// An event comes.
    #[tactic(auto, unfolding(crate::specs::Counts::bus_event_begun))]
    fn begin(&mut self) -> Result<(), NoMemory>
        ensures { OnOk result (self.new ≡ bus_event_begun self.old) }
    {
        self.common.begin()
    }

    /// How many cores take each packet: all but the one that sends it.
    fn takers(&self) -> u64
        ensures { result ≡ length self.now.common.cores - 1 }
    {
        (self.common.core_count() as u64).saturating_sub(1)
    }

    /// One fact of an event of this core.
    #[tactic(auto, unfolding(crate::specs::Counts::bus_counted))]
    fn count(&mut self, core: CoreId, fact: &BusFact) -> Result<(), NoMemory>
        ensures { OnOk result (self.new ≡ bus_counted core.0 (bus_fact_of fact.now) self.old) }
    {
        let takers = self.takers();
        count_common(&mut self.common, core, fact, &self.lines.items)?;
        self.packets.count(takers, fact)?;
        note_lines(&mut self.lines, fact)
    }

    /// An event of this core, with its facts. It fails for want of memory, and where a number could come above 2^56, to which no run of
    /// fewer than 2^24 events comes whose facts are fewer than a million each. Some of the facts may be counted then and others not, so
    /// the counts are of no use any more. Takes constant time for each core, each fact and each line of a packet that is taken, but for
    /// the logarithm of the lines and conflicts so far.
    pub fn event(&mut self, core: CoreId, facts: &[BusFact]) -> Result<(), NoMemory>
        ensures { OnOk result (self.new ≡ bus_event_counted core.0 (map bus_fact_of facts.now) self.old) }
    {
        self.begin()?;
        for fact in facts {
            self.count(core, fact)?;
        }
        Ok(())
    }

    #[tactic(auto, unfolding(crate::specs::Text::bus_count_text))]
    fn push_all(
        &self,
        text: &mut String,
        config: &Config,
        done: bool,
        events: u64,
    ) -> Result<(), AllocError>
        ensures { OnOk result (string_bytes text.new ≡ string_bytes text.old ++ bus_count_text config.now done events self.now) }
    {
        text.push_str("tcc-bus-count 1\n")?;
        push_bus_config(text, config)?;
        self.common.push_tables(text)?;
        push_packets(text, &self.packets)?;
        self.common.push_lines(text)?;
        self.common.push_conflicts(text)?;
        push_end(text, done)?;
        push_events(text, events)
    }

    #[tactic(auto, unfolding(crate::specs::Csv::bus_csv_text))]
    fn push_totals(
        &self,
        text: &mut String,
        config: &Config,
        seed: Option<(u64, u64)>,
        done: bool,
        events: u64,
    ) -> Result<(), AllocError>
        ensures { OnOk result (string_bytes text.new ≡ string_bytes text.old ++ bus_csv_text config.now seed done events self.now) }
    {
        push_names(text)?;
        text.push_str("\n1")?;
        push_settings(text, config)?;
        push_seed(text, seed)?;
        push_end_cell(text, done)?;
        push_cell(text, events)?;
        self.common.push_table_cells(text)?;
        push_packets_cells(text, &self.packets)?;
        text.push_str("\n")
    }

    /// Appends the text of the counts: the settings, the five tables, packets, the lines, the conflicts, and whether the run is done and
    /// how many events it took, as the caller says. Takes time for each byte that it writes. After want of memory a part of it may stand
    /// there.
    pub fn push_text(
        &self,
        text: &mut String,
        config: &Config,
        done: bool,
        events: u64,
    ) -> Result<(), NoMemory>
        ensures { OnOk result (string_bytes text.new ≡ string_bytes text.old ++ bus_count_text config.now done events self.now) }
    {
        self.push_all(text, config, done, events)
            .map_err(|_| NoMemory)
    }

    /// Appends the totals as two rows for a table: the names of the columns, and the settings, the seed and the number of steps where
    /// the run has them, how it ended, and the numbers of all cores and of packets. After want of memory a part of it may stand there.
    pub fn push_csv(
        &self,
        text: &mut String,
        config: &Config,
        seed: Option<(u64, u64)>,
        done: bool,
        events: u64,
    ) -> Result<(), NoMemory>
        ensures { OnOk result (string_bytes text.new ≡ string_bytes text.old ++ bus_csv_text config.now seed done events self.now) }
    {
        self.push_totals(text, config, seed, done, events)
            .map_err(|_| NoMemory)
    }
}
