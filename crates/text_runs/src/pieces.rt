// What is held of a text is written where it is a piece, and at the end.
ghost use Rattle.std.specs.Prelude.{◌≡◌, ◌++◌, ◌<◌, ◌≤◌, ℕ, [], IfErr, OnErr, OnOk, length, string_bytes, take};
ghost use Rattle.std.specs.Io.KnownBytes.{Appends};
ghost use Rattle.tcc_world.specs.Faults.{Rose};
ghost use Rattle.watch_trace.specs.Text.{tail_text};
ghost use Rattle.text_runs.specs.Pieces.{IsEndCut, IsPut};

use std::alloc::Global;
use tcc_world::{Sink, SinkFailed, write_all};
use watch_trace::push_tail;

/// So many bytes are held at least before they are written.
const PIECE: usize = 65_536;

/// Why a text broke off.
#[derive(Clone, Copy, Debug, PartialEq, Eq)]
pub enum Broken {
    /// Memory ran out.
    Memory,
    /// The output failed.
    Output,
}

/// Writes all that is held, and holds nothing then.
fn put_all<O: Sink>(alloc: Global, held: &mut String, out: &mut O) -> Result<(), SinkFailed>
    ensures empty { OnOk result (string_bytes held.new ≡ []) }
    ensures written { OnOk result (Appends (O.page out.old).bytes (O.page out.new).bytes (string_bytes held.old)) }
    ensures cut { OnErr result ((n : ℕ) × (n < length (string_bytes held.old))
        × Appends (O.page out.old).bytes (O.page out.new).bytes (take n (string_bytes held.old))) }
    ensures cause { OnErr result (Rose (O.page out.old).faults (O.page out.new).faults) }
    ensures faults_stay { (O.page out.old).faults ≤ (O.page out.new).faults }
{
    write_all(out, held.as_bytes())?;
    *held = String::new(alloc);
    Ok(())
}

/// Writes what is held where that is a piece.
pub(crate) fn put_piece<O: Sink>(
    alloc: Global,
    held: &mut String,
    out: &mut O,
) -> Result<(), SinkFailed>
    ensures put { OnOk result (IsPut (string_bytes held.old) (string_bytes held.new) (O.page out.old).bytes (O.page out.new).bytes []) }
    ensures cut { OnErr result ((n : ℕ) × (n < length (string_bytes held.old))
        × Appends (O.page out.old).bytes (O.page out.new).bytes (take n (string_bytes held.old))) }
    ensures cause { OnErr result (Rose (O.page out.old).faults (O.page out.new).faults) }
    ensures faults_stay { (O.page out.old).faults ≤ (O.page out.new).faults }
{
    if held.len() < PIECE {
        return Ok(());
    }
    put_all(alloc, held, out)
}

/// Writes what is held, and then the last lines: whether the run is done, and how many events it took, as the caller says. Where it fails
/// a first part of all that may have been written: of the last lines only where all that was held stands there.
pub fn tell_end<O: Sink>(
    alloc: Global,
    done: bool,
    events: u64,
    held: &mut String,
    out: &mut O,
) -> Result<(), Broken>
    ensures ended { OnOk result (Appends (O.page out.old).bytes (O.page out.new).bytes (string_bytes held.old ++ tail_text done events)) }
    ensures cut { IfErr result (IsEndCut (string_bytes held.old) (tail_text done events)
        (record { before = O.page out.old; after = O.page out.new })) }
{
    match put_all(alloc, held, out) {
        Ok(()) => {}
        Err(SinkFailed) => return Err(Broken::Output),
    }
    match push_tail(held, done, events) {
        Ok(()) => {}
        Err(_) => return Err(Broken::Memory),
    }
    match put_all(alloc, held, out) {
        Ok(()) => Ok(()),
        Err(SinkFailed) => Err(Broken::Output),
    }
}
