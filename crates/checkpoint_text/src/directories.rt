// The tables of directories and of the lines of memory, as text. After want of memory a text may have more behind its old bytes.
ghost use Rattle.std.specs.Prelude.{◌≡◌, ◌++◌, ℕ, OnOk, Some, codes, map, slice_get};
ghost use Rattle.std.specs.List.{flat_map};
ghost use Rattle.rules_maps.specs.Shape.{lines};
ghost use Rattle.rules_tcc.specs.Seen.{numbers};
ghost use Rattle.directory.specs.Data.{DirData};
ghost use Rattle.net_core.specs.Machine.{settings_of};
ghost use Rattle.row_text.specs.Rows.{rows_text};
ghost use Rattle.checkpoint_text.specs.Directories.{directory_tables, line_row, serving_numbers};
ghost use Rattle.checkpoint_text.specs.Laws.{HaveOneHome};
ghost use Rattle.checkpoint_text.specs.Numbers.{flag};
ghost use Rattle.checkpoint_text.specs.Tables.{each, tables_rows};
ghost use Rattle.checkpoint_text.specs.Written.{numbered_text, table_text};

use crate::dir_rows::{push_line, push_serving, push_skips};
use directory::Directory;
use net_core::System;
use tcc_base::{LineAddr, List, NoMemory};

fn push_serving_table(text: &mut List<u8>, dirs: &[Directory]) -> Result<(), NoMemory>
    ensures { OnOk result (text.new ≡ text.old ++ numbered_text (codes "directory") (each serving_numbers) 0 dirs.now) }
{
    for (k, dir) in dirs.iter().enumerate() {
        push_serving(text, k as u64, dir)?;
    }
    Ok(())
}

fn push_skip_table(text: &mut List<u8>, dirs: &[Directory]) -> Result<(), NoMemory>
    ensures home { OnOk result (HaveOneHome dirs.now) }
    ensures text { OnOk result (text.new
        ≡ text.old ++ numbered_text (codes "skipped") (each (λ (d : DirData). map flag d.serving.skips)) 0 dirs.now) }
{
    for (k, dir) in dirs.iter().enumerate() {
        push_skips(text, k as u64, dir)?;
    }
    Ok(())
}

fn push_line_table(text: &mut List<u8>, system: &System) -> Result<(), NoMemory>
    ensures { OnOk result (text.new ≡ text.old ++ table_text (codes "line")
        (flat_map (line_row system.now.cores.code system.now.dirs.dirs) (numbers (lines (settings_of system.now))))) }
{
    for line in 0..system.config().words() / 8 {
        push_line(text, system, LineAddr(line))?;
    }
    Ok(())
}

/// Appends the tables of directories, and of the lines of memory that aren't as at the start. It takes time for each line of memory and
/// each byte that it writes.
pub(crate) fn push_directories(text: &mut List<u8>, system: &System) -> Result<(), NoMemory>
    ensures lines { OnOk result ((d : ℕ) (x : DirData) → slice_get system.now.dirs.dirs d ≡ Some x
        → x.lines.place ≡ record { shape = settings_of system.now; dir = d }) }
    ensures home { OnOk result (HaveOneHome system.now.dirs.dirs) }
    ensures text { OnOk result (text.new
        ≡ text.old ++ rows_text (tables_rows (directory_tables system.now.cores.code system.now.dirs.dirs))) }
{
    let dirs = system.all_dirs();
    push_serving_table(text, dirs)?;
    push_skip_table(text, dirs)?;
    push_line_table(text, system)?;
    Ok(())
}
