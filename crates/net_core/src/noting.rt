// Which lines have a copy away from their homes: in a core's frame, or in a message on its way from a core.
ghost use Rattle.std.specs.Prelude.{◌≡◌, ◌≢◌, ◌<◌, ℕ, [], Some, IfOk};
ghost use Rattle.rules_maps.specs.Cache.{dirty_mask};
ghost use Rattle.rules_maps.specs.Nodes.{Core, Dir};
ghost use Rattle.rules_maps.specs.Shape.{lines};
ghost use Rattle.rules_maps.specs.Words.{line_of};
ghost use Rattle.tcc_msg.specs.Plain.{msg_of};
ghost use Rattle.rules_tcc.specs.Seen.{copies_of, copies_on, copy_of};
ghost use Rattle.core_node.specs.View.{core_of};
ghost use Rattle.machine_links.specs.Flights.{net_of};
ghost use Rattle.net_core.specs.Away.{Covers, CoversCopies, is_noted};
ghost use Rattle.net_core.specs.Machine.{settings_of, world_of};

use crate::system::System;
use core_node::CoreNode;
use machine_links::InFlight;
use std::alloc::Global;
use tcc_base::{CoreId, DirId, LineAddr, NoMemory, NodeId};
use tcc_msg::Msg;

/// Whether a line has a note.
pub(crate) fn is_noted(notes: &[bool], line: LineAddr) -> bool
    ensures { result ≡ is_noted notes.now line.0 }
{
    match notes.get(line.0 as usize) {
        Some(noted) => *noted,
        None => true,
    }
}

/// Notes a line.
fn note(notes: &mut [bool], line: LineAddr)
    ensures { Covers notes.old notes.new (λ l. l ≢ line.0) }
{
    let at = line.0 as usize;
    if at < notes.len() {
        notes[at] = true;
    }
}

/// Notes the line of a way, where it has a dirty word.
fn note_way(notes: &mut [bool], core: &CoreNode, set: u16, way: u8)
    requires set_exists { set < core.now.config.sets }
    requires way_exists { way < core.now.config.ways }
    ensures { let c = (core_of core.now).cache in Covers notes.old notes.new (λ l. c.at set way ≡ Some l → dirty_mask c l ≡ 0) }
{
    if let Some(frame) = core.frame(set, way) {
        if frame.dirty.0 != 0 {
            note(notes, frame.line);
        }
    }
}

/// Notes the lines of a set that have a dirty word.
fn note_set(notes: &mut [bool], core: &CoreNode, set: u16)
    requires set_exists { set < core.now.config.sets }
    ensures { let c = (core_of core.now).cache in
        Covers notes.old notes.new (λ l. (y : ℕ) → y < core.now.config.ways → c.at set y ≡ Some l → dirty_mask c l ≡ 0) }
{
    for way in 0..core.core().config.ways() {
        note_way(notes, core, set, way);
    }
}

/// Notes the lines of which a core has a dirty word. It takes constant time where it has none, else time in its frames.
fn note_core(notes: &mut [bool], core: &CoreNode)
    ensures { let c = (core_of core.now).cache in
        Covers notes.old notes.new (λ l. l < lines core.now.config → (w : ℕ) → line_of w ≡ l → c.dirty w ≡ None) }
{
    core.keeps_cache();
    if core.any_dirty() {
        for set in 0..core.core().config.sets() {
            note_set(notes, core, set);
        }
    }
}

/// Notes the line of a message on its way home, where it carries words.
fn note_msg(notes: &mut [bool], msg: &Msg)
    ensures { Covers notes.old notes.new (λ l. (w : ℕ) → line_of w ≡ l → copy_of w (msg_of msg.now) ≡ []) }
{
    if let Msg::WriteBack { line, .. } | Msg::Flush { line, .. } = msg {
        note(notes, *line);
    }
}

/// Notes the lines of which words are on their way from a core to a directory.
fn note_link(notes: &mut [bool], flights: &InFlight, core: CoreId, dir: DirId)
    ensures { let link = net_of flights.now (Core core.0) (Dir dir.0) in
        Covers notes.old notes.new (λ l. (w : ℕ) → line_of w ≡ l → copies_on w link ≡ []) }
{
    let src = NodeId::Core(core);
    let dst = NodeId::Dir(dir);
    for i in 0..flights.waiting(src, dst) {
        if let Some((_, msg)) = flights.waiting_at(src, dst, i) {
            note_msg(notes, msg);
        }
    }
}

impl System {
    /// Notes the lines of which a core has a copy, or has sent one that is on its way.
    fn note_copies(&self, notes: &mut [bool], core: CoreId)
        requires settled { self.now.unsent ≡ [] }
        requires exists { core.0 < (settings_of self.now).cores }
        ensures { let s = settings_of self.now in
            Covers notes.old notes.new (λ l. l < lines s → (w : ℕ) → line_of w ≡ l → copies_of s (world_of self.now) w core.0 ≡ []) }
    {
        for d in 0..self.config().dirs() {
            note_link(notes, &self.flights, core, DirId(d));
        }
        note_core(notes, self.cores.core(core));
    }

    /// A note for each line of which a copy may be away from its home.
    pub(crate) fn notes(&self, alloc: Global) -> Result<Vec<bool>, NoMemory>
        requires settled { self.now.unsent ≡ [] }
        ensures { IfOk result (λ notes. CoversCopies self.now notes.items) }
    {
        let count = self.config().words() as usize / 8;
        let mut notes = vec![in alloc; false; count].map_err(|_| NoMemory)?;
        for c in 0..self.config().cores() {
            self.note_copies(notes.as_mut_slice(), CoreId(c));
        }
        Ok(notes)
    }
}
