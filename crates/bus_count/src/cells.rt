// The rows of the table that `--csv` asks for, each number with the comma that stands before it.
ghost use Rattle.std.specs.Prelude.{◌≡◌, ◌++◌, OnOk, string_bytes};
ghost use Rattle.bus_count.specs.Csv.{bus_names, bus_settings_cells, packets_cells};

use crate::packets::PacketCounts;
use bus_trace::ram_bytes;
use std::alloc::AllocError;
use tcc_base::Config;
use watch_count::{push_cell, push_table_names};

/// The names of the columns.
pub(crate) fn push_names(text: &mut String) -> Result<(), AllocError>
    ensures { OnOk result (string_bytes text.new ≡ string_bytes text.old ++ bus_names) }
{
    text.push_str("tcc-bus-count,cores,sets,ways,base,ram,seed,steps,end,events")?;
    push_table_names(text)?;
    text.push_str(",packets_sent,packets_took,packets_left")
}

/// The settings.
#[tactic(auto, unfolding(crate::specs::Csv::bus_settings_cells))]
pub(crate) fn push_settings(text: &mut String, config: &Config) -> Result<(), AllocError>
    ensures { OnOk result (string_bytes text.new ≡ string_bytes text.old ++ bus_settings_cells config.now) }
{
    push_cell(text, config.cores() as u64)?;
    push_cell(text, config.sets() as u64)?;
    push_cell(text, config.ways() as u64)?;
    push_cell(text, config.base() as u64)?;
    push_cell(text, ram_bytes(config))
}

/// The numbers of packets.
#[tactic(auto, unfolding(crate::specs::Csv::packets_cells))]
pub(crate) fn push_packets_cells(
    text: &mut String,
    packets: &PacketCounts,
) -> Result<(), AllocError>
    ensures { OnOk result (string_bytes text.new ≡ string_bytes text.old ++ packets_cells packets.now) }
{
    push_cell(text, packets.sent)?;
    push_cell(text, packets.took)?;
    push_cell(text, packets.left)
}
