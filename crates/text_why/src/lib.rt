// The text that says why messages wait, byte for byte: each message that waits with its reason, and what can happen next.
#![tactic(auto)]

mod lines;
mod links;
mod texts;

pub use texts::why;
