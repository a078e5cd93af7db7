// RAM as the commits left it, read line by line.
ghost use Rattle.std.specs.Prelude.{◌≡◌, ◌<◌, ◌*◌, ◌/◌, [], IfOk, map};
ghost use Rattle.std.specs.List.{range_with_len};
ghost use Rattle.rules_tcc.specs.Seen.{seen};
ghost use Rattle.net_core.specs.Machine.{settings_of, world_of};

use crate::noting::is_noted;
use crate::system::System;
use std::alloc::Global;
use std::marker::Model;
use tcc_base::{LineAddr, NoMemory};

/// The words of a machine as they are committed, wherever the newest copies are. It has a note for each line of which a copy may be
/// away from its home; the others, most of them in a large RAM, are read at home. In a clause it is the machine.
#[derive(Drop)]
pub struct SeenRam<'a> {
    system: &'a System,
    notes: Vec<bool>,
}

impl<'a> Model for SeenRam<'a> {
    ghost use Rattle.std.specs.Prelude.{◌≡◌, []};
    ghost use Rattle.net_core.specs.Away.{CoversCopies};
    ghost use Rattle.net_core.specs.Machine.{Machine};

    ghost Value = { Machine };

    ghost view = { λ r. r.system.now };

    ghost invariant = { λ r. (r.system.now.unsent ≡ []) × CoversCopies r.system.now r.notes.items };
}

impl System {
    /// RAM as it is committed, where all that was sent stands on its links. It takes a byte of memory for each line, and time in the
    /// lines, in the links from cores to directories with their messages, and in the frames of those cores that have a dirty word.
    pub fn seen_ram(&self, alloc: Global) -> Result<SeenRam<'_>, NoMemory>
        requires settled { self.now.unsent ≡ [] }
        ensures { IfOk result (λ ram. ram ≡ self.now) }
    {
        let notes = self.notes(alloc)?;
        Ok(SeenRam {
            system: self,
            notes,
        })
    }
}

impl<'a> SeenRam<'a> {
    /// The number of RAM's lines.
    pub fn line_count(&self) -> usize
        ensures { 8 * result ≡ (settings_of self.now).ram / 4 }
    {
        self.system.config().words() as usize / 8
    }

    /// The eight words of a line as they are committed. It takes constant time where no copy is away from home, else the time of
    /// `System::seen_line`.
    pub fn line(&self, line: LineAddr) -> [u32; 8]
        requires inside { 8 * line.0 < (settings_of self.now).ram / 4 }
        ensures { result ≡ map (seen (settings_of self.now) (world_of self.now)) (range_with_len (8 * line.0) 8) }
    {
        let system = self.system;
        if is_noted(&self.notes, line) {
            system.seen_line(line)
        } else {
            system.dirs.line_words(line)
        }
    }
}
