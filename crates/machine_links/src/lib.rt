// The messages in flight of a machine, by link, each with a mark that says whether it may be delivered.
#![tactic(auto)]

mod flights;
mod grid;
mod index;
mod lane;
mod rest;
mod stretch;
mod subject;

pub use flights::{InFlight, MAX_FLYING};
pub use lane::{Held, Lane, Waiting};
pub use subject::{Entry, Subject};
