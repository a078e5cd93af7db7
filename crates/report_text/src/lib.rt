// The text of a report, byte for byte: of the run of any machine that can show its words, of a serial execution, and of a trial.
#![tactic(auto)]

mod body;
mod growing;
mod lines;
mod machines;
mod often;
mod shown;
mod texts;
mod trials;

pub use body::push_core_lines;
pub use lines::{push_console, push_core, push_end, push_events, push_mem};
pub use machines::{ShownCores, consoles, cores};
pub use shown::{CoreShown, Ending, ShownWords, Trial};
pub use texts::{bus_machine_report, report, serial_report};
pub use trials::trial_summary;
