// A core, a directory or the vendor, as one member of a machine whose nodes are kept apart: it acts by the rules of its kind.
#![tactic(auto)]

mod acting;
mod always;
mod choosing;
mod kind;
mod member;

pub use always::never_waits;
pub use member::Member;
