//! The text of a trace, byte for byte: a line for each event of a run, and below it a line for each fact of it. `trace_text` of
//! specs/Text defines the whole, and the functions here append its parts, so that a trace can be written while its run goes on.
#![tactic(auto)]

mod facts;
mod lines;
mod numbers;
mod texts;
mod words;

ghost use Rattle.watch_trace.specs.Rows.{AreWritten, finished_rows, undone_rows, moved_rows, delivered_rows, sent_rows};
ghost use Rattle.watch_trace.specs.Rows.{LastOfDoomedAttempt, FirstAndLastLines};

pub use facts::{push_event_facts, push_fact, push_facts};
pub use lines::push_name;
pub use numbers::{push_field, push_fields};
pub use texts::{push_from, push_head, push_tail};
pub use words::{push_message, push_phase, push_values};

/// Lines of facts of each kind, as a second implementation wrote them, and the text of some events.
pub fn worked_lines()
    ensures finished { AreWritten finished_rows }
    ensures undone { AreWritten undone_rows }
    ensures moved { AreWritten moved_rows }
    ensures delivered { AreWritten delivered_rows }
    ensures sent { AreWritten sent_rows }
    ensures last_of_doomed_attempt { LastOfDoomedAttempt }
    ensures first_and_last { FirstAndLastLines }
{}
