// The tables of messages, as text. After want of memory a text may have more behind its old bytes.
ghost use Rattle.std.specs.Prelude.{◌≡◌, ◌∷◌, ◌++◌, [], ℕ, OnOk, codes, length, map};
ghost use Rattle.row_text.specs.Rows.{row_text, rows_text};
ghost use Rattle.machine_links.specs.Lane.{Lane as LaneData};
ghost use Rattle.net_core.specs.Machine.{settings_of};
ghost use Rattle.checkpoint_text.specs.Messages.{flying_rows, message_numbers, message_tables};
ghost use Rattle.checkpoint_text.specs.Tables.{all, each, tables_rows};
ghost use Rattle.checkpoint_text.specs.Written.{numbered_text, table_text};

use crate::entries::{begin_long, flag, push_words};
use machine_links::Lane;
use net_core::System;
use row_text::{end_row, push_row};
use tcc_base::{List, NoMemory};
use tcc_msg::Msg;

fn push_sent_table(text: &mut List<u8>, lanes: &[Lane]) -> Result<(), NoMemory>
    ensures { OnOk result (text.new
        ≡ text.old ++ numbered_text (codes "sent") (each (λ (l : LaneData). length l ∷ [])) 0 lanes.now) }
{
    for (k, lane) in lanes.iter().enumerate() {
        push_row(text, b"sent", &[k as u64, lane.sent()])?;
    }
    Ok(())
}

/// Appends the row of a message with a line's words, behind these numbers.
fn push_data(text: &mut List<u8>, numbers: &[u64], words: &[u32; 8]) -> Result<(), NoMemory>
    ensures { OnOk result (text.new
        ≡ text.old ++ row_text (record { word = codes "message"; numbers = numbers.now ++ words.now })) }
{
    begin_long(text, b"message", numbers)?;
    push_words(text, words)?;
    end_row(text)?;
    Ok(())
}

/// Appends the row of a message without words.
fn push_short(text: &mut List<u8>, numbers: &[u64]) -> Result<(), NoMemory>
    ensures { OnOk result (text.new ≡ text.old ++ row_text (record { word = codes "message"; numbers = numbers.now })) }
{
    push_row(text, b"message", numbers)?;
    Ok(())
}

/// Appends the row of a message in flight, behind the place of its link and its number there.
#[tactic(auto, unfolding(crate::specs::Messages::message_numbers))]
fn push_message(text: &mut List<u8>, k: u64, seq: u64, msg: &Msg) -> Result<(), NoMemory>
    ensures { OnOk result (text.new
        ≡ text.old ++ row_text (record { word = codes "message"; numbers = k ∷ seq ∷ message_numbers msg.now })) }
{
    match msg {
        Msg::TidReq => push_short(text, &[k, seq, 0]),
        Msg::TidGrant { tid } => push_short(text, &[k, seq, 1, tid.0]),
        Msg::LoadReq { line, after } => push_short(text, &[k, seq, 2, line.0 as u64, after.0]),
        Msg::Fill { line, words } => push_data(text, &[k, seq, 3, line.0 as u64], words),
        Msg::Skip { tid } => push_short(text, &[k, seq, 4, tid.0]),
        Msg::Probe { tid } => push_short(text, &[k, seq, 5, tid.0]),
        Msg::ProbeReply { tid, serving } => push_short(text, &[k, seq, 6, tid.0, serving.0]),
        Msg::Mark { line, mask, tid } => {
            push_short(text, &[k, seq, 7, line.0 as u64, mask.0 as u64, tid.0])
        }
        Msg::Commit { tid, count } => push_short(text, &[k, seq, 8, tid.0, *count as u64]),
        Msg::Abort { tid } => push_short(text, &[k, seq, 9, tid.0]),
        Msg::WriteBack {
            mask,
            line,
            words,
            tag,
        } => push_data(
            text,
            &[k, seq, 10, line.0 as u64, mask.0 as u64, tag.0],
            words,
        ),
        Msg::Flush {
            mask,
            line,
            words,
            tag,
        } => push_data(
            text,
            &[k, seq, 11, line.0 as u64, mask.0 as u64, tag.0],
            words,
        ),
        Msg::DataReq { line } => push_short(text, &[k, seq, 12, line.0 as u64]),
        Msg::Inv { line, mask, tid } => {
            push_short(text, &[k, seq, 13, line.0 as u64, mask.0 as u64, tid.0])
        }
        Msg::InvAck { line, keeps } => {
            push_short(text, &[k, seq, 14, line.0 as u64, flag(*keeps)])
        }
    }
}

/// Appends a row for each message in flight on a link, behind the link's place.
fn push_flying(text: &mut List<u8>, k: u64, lane: &Lane) -> Result<(), NoMemory>
    ensures { OnOk result (text.new
        ≡ text.old ++ table_text (codes "message") (map (λ row. k ∷ row) (flying_rows 0 lane.now))) }
{
    for i in 0..lane.waiting() {
        if let Some((seq, held)) = lane.waiting_at(i) {
            push_message(text, k, seq, &held.msg)?;
        }
    }
    Ok(())
}

fn push_message_table(text: &mut List<u8>, lanes: &[Lane]) -> Result<(), NoMemory>
    ensures { OnOk result (text.new
        ≡ text.old ++ numbered_text (codes "message") (all (flying_rows 0) (λ row. row)) 0 lanes.now) }
{
    for (k, lane) in lanes.iter().enumerate() {
        push_flying(text, k as u64, lane)?;
    }
    Ok(())
}

/// Appends the tables of messages. It takes time for each byte that it writes, and for each message in flight the number of stretches
/// before it on its link.
pub(crate) fn push_messages(text: &mut List<u8>, system: &System) -> Result<(), NoMemory>
    ensures cores { OnOk result (system.now.flights.cores ≡ (settings_of system.now).cores) }
    ensures dirs { OnOk result (system.now.flights.dirs ≡ (settings_of system.now).dirs) }
    ensures text { OnOk result (text.new ≡ text.old ++ rows_text (tables_rows (message_tables system.now.flights.lanes))) }
{
    let lanes = system.all_lanes();
    push_sent_table(text, lanes)?;
    push_message_table(text, lanes)?;
    Ok(())
}
