// All nodes of a machine with their links: in one thread, and each behind a lock of its own for any number of threads.
#![tactic(auto)]

mod acts;
mod closing;
mod desk;
mod farm;
mod making;
mod nodes;
mod places;
mod ringing;
mod setup;
mod ticket;

pub use acts::Acts;
pub use farm::Farm;
pub use nodes::Nodes;
pub use setup::Setup;
pub use ticket::Ticket;
