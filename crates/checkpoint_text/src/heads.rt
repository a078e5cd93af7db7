// The tables of what a machine has once, as text.
ghost use Rattle.std.specs.Prelude.{◌≡◌, ◌∷◌, ◌++◌, [], OnOk, codes};
ghost use Rattle.row_text.specs.Rows.{row_text, rows_text};
ghost use Rattle.checkpoint_text.specs.Machines.{head_tables, settings_numbers};
ghost use Rattle.checkpoint_text.specs.Tables.{tables_rows};

use net_core::System;
use row_text::push_row;
use tcc_base::{Config, List, NoMemory};

fn push_settings(text: &mut List<u8>, config: &Config) -> Result<(), NoMemory>
    ensures { OnOk result (text.new
        ≡ text.old ++ row_text (record { word = codes "settings"; numbers = settings_numbers config.now })) }
{
    push_row(
        text,
        b"settings",
        &[
            config.cores() as u64,
            config.dirs() as u64,
            config.sets() as u64,
            config.ways() as u64,
            4 * config.words() as u64,
            config.base() as u64,
        ],
    )
}

/// Appends the tables of the version, of the settings, and of the events and TIDs so far. After want of memory the text may have more
/// behind its old bytes.
pub(crate) fn push_head(text: &mut List<u8>, system: &System) -> Result<(), NoMemory>
    ensures { OnOk result (text.new ≡ text.old ++ rows_text (tables_rows (head_tables system.now))) }
{
    push_row(text, b"tcc-checkpoint", &[1])?;
    push_settings(text, system.config())?;
    push_row(text, b"events", &[system.events(), system.next_tid().0])?;
    Ok(())
}
