// Events by a short name: (e 1) is an execution of core 1, (x 1 4 0) its eviction of set 4 and way 0, and (d C1 D0 2) the delivery
// of what core 1 sent directory 0 after two other messages.
use tcc_base::{CoreId, DirId, NodeId};

pub(crate) const C0: NodeId = NodeId::Core(CoreId(0));

pub(crate) const C1: NodeId = NodeId::Core(CoreId(1));

pub(crate) const D0: NodeId = NodeId::Dir(DirId(0));

pub(crate) const D1: NodeId = NodeId::Dir(DirId(1));

pub(crate) const V: NodeId = NodeId::Vendor;

// The name of a message.
macro_rules! name {
    ($src:ident $dst:ident $seq:literal) => {
        Name {
            src: $src,
            dst: $dst,
            seq: $seq,
        }
    };
}

// An event: a core executes, it empties a way of a set, or a message is delivered.
macro_rules! event {
    (e $core:literal) => {
        Event::Exec(CoreId($core))
    };
    (x $core:literal $set:literal $way:literal) => {
        Event::Evict(CoreId($core), $set, $way)
    };
    (d $src:ident $dst:ident $seq:literal) => {
        Event::Deliver(name!($src $dst $seq))
    };
}

macro_rules! events {
    ($(($($part:tt)*))*) => {
        [$(event!($($part)*)),*]
    };
}

pub(crate) use event;
pub(crate) use events;
pub(crate) use name;
