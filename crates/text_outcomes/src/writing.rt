// A table, written piece by piece: it may have a hundred thousand outcomes.
ghost use Rattle.std.specs.Prelude.{◌≡◌, ◌++◌, ◌≤◌, [], IfErr, OnErr, OnOk, string_bytes};
ghost use Rattle.std.specs.Io.KnownBytes.{Appends};
ghost use Rattle.tcc_world.specs.Faults.{Rose};
ghost use Rattle.text_outcomes.specs.Changes.{AreWords};
ghost use Rattle.text_outcomes.specs.Sources.{IsOne, table_of};
ghost use Rattle.text_outcomes.specs.Table.{outcomes_text, table_text, tail_text};
ghost use Rattle.text_outcomes.specs.Written.{IsBroken, IsCut, IsPut};

use crate::table::{Table, push_head, push_outcome_at, push_tail};
use crate::told::words_fit;
use std::alloc::Global;
use tcc_world::{Sink, SinkFailed, write_all};

/// So many bytes are held at least before they are written.
const PIECE: usize = 65_536;

/// Why a table broke off.
#[derive(Clone, Copy, Debug, PartialEq, Eq)]
pub enum Broken {
    /// Memory ran out.
    Memory,
    /// The output failed.
    Output,
}

/// Writes all that is held, and holds nothing then.
fn put_all<O: Sink>(alloc: Global, held: &mut String, out: &mut O) -> Result<(), SinkFailed>
    ensures empty { OnOk result (string_bytes held.new ≡ []) }
    ensures written { OnOk result (Appends (O.page out.old).bytes (O.page out.new).bytes (string_bytes held.old)) }
    ensures cut { OnErr result (IsCut (string_bytes held.old) (O.page out.old).bytes (O.page out.new).bytes) }
    ensures cause { OnErr result (Rose (O.page out.old).faults (O.page out.new).faults) }
    ensures faults_stay { (O.page out.old).faults ≤ (O.page out.new).faults }
{
    write_all(out, held.as_bytes())?;
    *held = String::new(alloc);
    Ok(())
}

/// Writes what is held where that is a piece.
fn put_piece<O: Sink>(alloc: Global, held: &mut String, out: &mut O) -> Result<(), SinkFailed>
    ensures put { OnOk result (IsPut (string_bytes held.old) (string_bytes held.new) (O.page out.old).bytes (O.page out.new).bytes) }
    ensures cut { OnErr result (IsCut (string_bytes held.old) (O.page out.old).bytes (O.page out.new).bytes) }
    ensures cause { OnErr result (Rose (O.page out.old).faults (O.page out.new).faults) }
    ensures faults_stay { (O.page out.old).faults ≤ (O.page out.new).faults }
{
    if held.len() < PIECE {
        return Ok(());
    }
    put_all(alloc, held, out)
}

/// Puts the outcomes behind what is held, of which pieces are written.
fn put_outcomes<O: Sink>(
    alloc: Global,
    table: &Table,
    held: &mut String,
    out: &mut O,
) -> Result<(), Broken>
    requires one { IsOne table.now }
    requires fit { AreWords table.now.loaded.now }
    ensures put { OnOk result (IsPut (string_bytes held.old ++ outcomes_text table.now.tell (table_of table.now)) (string_bytes held.new)
        (O.page out.old).bytes (O.page out.new).bytes) }
    ensures faults_stay { (O.page out.old).faults ≤ (O.page out.new).faults }
    ensures broken { IfErr result (IsBroken (string_bytes held.old ++ outcomes_text table.now.tell (table_of table.now))
        (record { before = O.page out.old; after = O.page out.new })) }
{
    let results = table.results;
    for i in 0..results.firsts.items.len() {
        match push_outcome_at(held, table, i) {
            Ok(()) => {}
            Err(_) => return Err(Broken::Memory),
        }
        match put_piece(alloc, held, out) {
            Ok(()) => {}
            Err(SinkFailed) => return Err(Broken::Output),
        }
    }
    Ok(())
}

/// Writes what is held and the last lines behind it.
fn put_tail<O: Sink>(
    alloc: Global,
    table: &Table,
    held: &mut String,
    out: &mut O,
) -> Result<(), Broken>
    requires { IsOne table.now }
    ensures written { OnOk result
        (Appends (O.page out.old).bytes (O.page out.new).bytes (string_bytes held.old ++ tail_text (table_of table.now))) }
    ensures broken { IfErr result (IsBroken (string_bytes held.old ++ tail_text (table_of table.now))
        (record { before = O.page out.old; after = O.page out.new })) }
{
    match push_tail(held, table) {
        Ok(()) => {}
        Err(_) => return Err(Broken::Memory),
    }
    match put_all(alloc, held, out) {
        Ok(()) => Ok(()),
        Err(SinkFailed) => Err(Broken::Output),
    }
}

/// Writes the text of a table.
///
/// It is written in pieces of some 64 KiB, so a first part of it may have been written where it fails, but never all of it. The time is
/// that of the text, and RAM's words are looked at once; the memory is that of a piece and of the longest list of transactions.
pub fn write_table<O: Sink>(alloc: Global, table: &Table, out: &mut O) -> Result<(), Broken>
    requires { IsOne table.now }
    ensures written { OnOk result (Appends (O.page out.old).bytes (O.page out.new).bytes (table_text table.now.tell (table_of table.now))) }
    ensures broken { IfErr result (IsBroken (table_text table.now.tell (table_of table.now))
        (record { before = O.page out.old; after = O.page out.new })) }
{
    words_fit(table.loaded);
    let mut held = String::new(alloc);
    match push_head(&mut held, table) {
        Ok(()) => {}
        Err(_) => return Err(Broken::Memory),
    }
    match put_outcomes(alloc, table, &mut held, out) {
        Ok(()) => put_tail(alloc, table, &mut held, out),
        Err(broken) => Err(broken),
    }
}
