// Whether an event is useful, and what the directories know.
ghost use Rattle.std.specs.Prelude.{◌≡◌, ◌<◌, ◌↔◌, [], IsTrue, Some, option_map};
ghost use Rattle.rules_maps.specs.Lines.{has_mark};
ghost use Rattle.rules_maps.specs.Nodes.{Evict};
ghost use Rattle.rules_maps.specs.Shape.{home, lines};
ghost use Rattle.rules_maps.specs.Words.{count_below};
ghost use Rattle.tcc_msg.specs.Plain.{event_of};
ghost use Rattle.rules_tcc.specs.Useful.{is_useful};
ghost use Rattle.net_core.specs.Machine.{program_of, settings_of, world_of};

use crate::system::System;
use directory::LineState;
use tcc_base::{CoreId, DirId, LineAddr, Tid};
use tcc_msg::Event;

/// Whether it is the eviction of this core, set and way.
fn is_evict(event: Option<Event>, core: CoreId, set: u16, way: u8) -> bool
    ensures { IsTrue result ↔ (option_map event_of event ≡ Some (Evict core.0 set way)) }
{
    match event {
        Some(Event::Evict(c, x, y)) => c.0 == core.0 && x == set && y == way,
        Some(Event::Exec(_)) | Some(Event::Deliver(_)) | None => false,
    }
}

impl System {
    /// Whether an eviction is useful.
    fn is_useful_evict(&self, core: CoreId, set: u16, way: u8) -> bool
        requires { self.now.unsent ≡ [] }
        ensures { result ≡ is_useful (settings_of self.now) (program_of self.now) (world_of self.now) (Evict core.0 set way) }
    {
        for k in 0..self.cores.evict_total() {
            if is_evict(self.cores.evict_at(k), core, set, way) {
                return true;
            }
        }
        false
    }

    /// Whether an event, which may name anything, is useful, where all that was sent stands on its links. It takes constant time and
    /// the logarithm of what is in flight, and for an eviction the number of useful evictions.
    pub fn is_useful(&self, e: Event) -> bool
        requires { self.now.unsent ≡ [] }
        ensures { result ≡ is_useful (settings_of self.now) (program_of self.now) (world_of self.now) (event_of e) }
    {
        match e {
            Event::Exec(_) | Event::Deliver(_) => self.enabled(e),
            Event::Evict(core, set, way) => self.is_useful_evict(core, set, way),
        }
    }

    /// The TID that a directory serves now. It takes constant time.
    pub fn serving(&self, dir: DirId) -> Tid
        requires { dir.0 < (settings_of self.now).dirs }
        ensures { result.0 ≡ ((world_of self.now).dirs dir.0).serving.serving }
    {
        self.dirs.serving(dir)
    }

    /// The number of lines that are marked at a directory. It takes constant time.
    pub fn marked_lines(&self, dir: DirId) -> u32
        requires { dir.0 < (settings_of self.now).dirs }
        ensures { result ≡ count_below (has_mark ((world_of self.now).dirs dir.0).lines) (lines (settings_of self.now)) }
    {
        self.dirs.marked_lines(dir)
    }

    /// What the home of a line knows of it. It takes constant time.
    pub fn line_state(&self, line: LineAddr) -> LineState
        requires { line.0 < lines (settings_of self.now) }
        ensures mark { let d = (world_of self.now).dirs (home (settings_of self.now) line.0) in result.mark.0 ≡ d.lines.mark line.0 }
        ensures owner { let d = (world_of self.now).dirs (home (settings_of self.now) line.0) in
            option_map (λ c. c.0) result.owner ≡ d.lines.owner line.0 }
        ensures asked { let d = (world_of self.now).dirs (home (settings_of self.now) line.0) in result.asked ≡ d.lines.asked line.0 }
        ensures tag { let d = (world_of self.now).dirs (home (settings_of self.now) line.0) in result.tag.0 ≡ d.lines.tag line.0 }
    {
        self.dirs.line_state(line)
    }
}
