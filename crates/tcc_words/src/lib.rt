// The words of a command line: which command they ask for, with which settings, and why they are refused.
#![tactic(auto)]

mod command;
mod fields;
mod grammar;
mod laws;
mod numbers;
mod reading;

pub use command::{Begin, Command, Field, Machine, Source, Verb, View, WordsFault};
pub use fields::MAX_COUNTED;
pub use laws::{commands_are_in_bounds, words_ask_for_one_command};
pub use reading::settings;
