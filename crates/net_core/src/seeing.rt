// Words as the commits left them, wherever the newest copy is.
ghost use Rattle.std.specs.Prelude.{◌≡◌, ◌<◌, ◌*◌, ◌/◌, [], map};
ghost use Rattle.std.specs.List.{range_with_len};
ghost use Rattle.rules_maps.specs.Nodes.{Core, Dir};
ghost use Rattle.rules_maps.specs.Words.{word_at};
ghost use Rattle.rules_tcc.specs.Seen.{copies_on, copy_in, seen};
ghost use Rattle.machine_links.specs.Flights.{net_of};
ghost use Rattle.machine_cores.specs.Bank.{cores_of};
ghost use Rattle.net_core.specs.Machine.{settings_of, world_of};
ghost use Rattle.net_core.specs.Copies.{AreNewest};

use crate::copies::{Copied, dated, newest_in_msg, newest_under, values};
use crate::system::System;
use machine_cores::CoreBank;
use machine_links::InFlight;
use tcc_base::{CoreId, DirId, LineAddr, NodeId, WordAddr};

/// Makes of each copy the newest of it and those of all messages from a core to a directory.
fn newest_on_link(
    flights: &InFlight,
    core: CoreId,
    dir: DirId,
    line: LineAddr,
    best: &mut [Copied; 8],
)
    ensures { AreNewest best.old best.new (λ k. copies_on (word_at line.0 k) (net_of flights.now (Core core.0) (Dir dir.0))) }
{
    let src = NodeId::Core(core);
    let dst = NodeId::Dir(dir);
    for i in 0..flights.waiting(src, dst) {
        if let Some((_, msg)) = flights.waiting_at(src, dst, i) {
            newest_in_msg(msg, line, best);
        }
    }
}

/// Makes of each copy the newer of it and that of a core's frame, where the word is dirty there.
fn newest_in_core(cores: &CoreBank, core: CoreId, line: LineAddr, best: &mut [Copied; 8])
    requires exists { core.0 < cores.now.code.settings.cores }
    ensures { let c = (cores_of cores.now core.0).cache in
        AreNewest best.old best.new (λ k. copy_in (c.value (word_at line.0 k)) (c.dirty (word_at line.0 k))) }
{
    cores.core(core).keeps_cache();
    if let Some(frame) = cores.frame_of(core, line) {
        if frame.dirty.0 != 0 {
            newest_under(frame.dirty, &frame.words, frame.tag, best);
        }
    }
}

impl System {
    /// The eight words of a line as they are committed, where all that was sent stands on its links. Its time goes with the number of
    /// cores and of the messages from them to the line's home.
    pub fn seen_line(&self, line: LineAddr) -> [u32; 8]
        requires settled { self.now.unsent ≡ [] }
        requires inside { 8 * line.0 < (settings_of self.now).ram / 4 }
        ensures { result ≡ map (seen (settings_of self.now) (world_of self.now)) (range_with_len (8 * line.0) 8) }
    {
        let home = self.config().home(line);
        let mut best = dated(self.dirs.tag(line), &self.dirs.line_words(line));
        for c in 0..self.config().cores() {
            let core = CoreId(c);
            newest_in_core(&self.cores, core, line, &mut best);
            newest_on_link(&self.flights, core, home, line, &mut best);
        }
        values(&best)
    }

    /// A word as it is committed, where all that was sent stands on its links. Its time goes with the number of cores and of the
    /// messages from them to the word's home.
    pub fn seen_word(&self, w: WordAddr) -> u32
        requires settled { self.now.unsent ≡ [] }
        requires inside { w.0 < (settings_of self.now).ram / 4 }
        ensures { result ≡ seen (settings_of self.now) (world_of self.now) w.0 }
    {
        let words = self.seen_line(LineAddr(w.0 / 8));
        words[(w.0 % 8) as usize]
    }
}
