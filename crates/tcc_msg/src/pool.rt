// The messages that have arrived at a place, by name, in an index map: found in constant time, and listed by position.
ghost use Rattle.std.specs.Prelude.{◌≡◌, ◌<◌, ◌==◌, Some, None, [], ◌∷◌, ◌++◌, length, slice_get, OnOk, OnErr, IfNone, IfSome};
ghost use Rattle.std.specs.Prelude.{option_copied, option_map};
ghost use Rattle.std.specs.List.{remove as without_place};
ghost use Rattle.indexmap.specs.IndexMap.{swap_remove_entry};

use crate::event::Name;
use indexmap::IndexMap;
use std::alloc::Global;
use std::marker::Model;
use tcc_base::NoMemory;

/// Messages by name. In a clause a pool is the list of its messages with their names, each name once, and for how many more it has
/// room.
#[derive(Debug, Drop)]
pub struct Pool<M> {
    arrived: IndexMap<Name, M>,
}

impl<M> Model for Pool<M> {
    ghost use Rattle.indexmap.specs.IndexMap.{spare};
    ghost use Rattle.tcc_msg.specs.Held.{PoolData};

    ghost Value = { PoolData M };

    ghost view = { λ p. record { messages = p.arrived.entries; room = spare p.arrived } };
}

impl<M: Copy> Pool<M> {
    ghost use Rattle.tcc_msg.specs.Held.{name_eq, held, with_message, without};

    /// An empty pool. No memory is taken yet.
    pub fn new(alloc: Global) -> Self
        ensures { result.messages ≡ [] }
    {
        Pool {
            arrived: IndexMap::new(alloc),
        }
    }

    /// The number of messages. It takes constant time.
    pub fn len(&self) -> usize
        ensures { result ≡ length self.now.messages }
    {
        self.arrived.len()
    }

    /// Whether no message is held. It takes constant time.
    pub fn is_empty(&self) -> bool
        ensures { result ≡ (length self.now.messages == 0) }
    {
        self.arrived.is_empty()
    }

    /// Makes room for one more message. After want of memory the messages are as before. It takes constant time but for the growth of
    /// the map.
    pub fn reserve(&mut self) -> Result<(), NoMemory>
        ensures room { OnOk result (0 < self.new.room) }
        ensures keeps { self.new.messages ≡ self.old.messages }
    {
        match self.arrived.reserve(1) {
            Ok(()) => Ok(()),
            Err(_) => Err(NoMemory),
        }
    }

    /// Adds a message of a new name, behind the others, where there is room. It takes constant time and no memory.
    pub fn add_reserved(&mut self, name: Name, msg: M)
        requires new { held self.old.messages name ≡ None }
        requires room { 0 < self.old.room }
        ensures order { self.new.messages ≡ self.old.messages ++ (name, msg) ∷ [] }
        ensures map { held self.new.messages ≡ with_message (held self.old.messages) name msg }
    {
        self.arrived.insert(name, msg).unwrap();
    }

    /// Adds a message of a new name, behind the others. After want of memory the messages are as before. It takes constant time but for
    /// the growth of the map.
    pub fn add(&mut self, name: Name, msg: M) -> Result<(), NoMemory>
        requires { held self.old.messages name ≡ None }
        ensures order { OnOk result (self.new.messages ≡ self.old.messages ++ (name, msg) ∷ []) }
        ensures map { OnOk result (held self.new.messages ≡ with_message (held self.old.messages) name msg) }
        ensures unchanged { OnErr result (self.new.messages ≡ self.old.messages) }
    {
        self.reserve()?;
        self.add_reserved(name, msg);
        Ok(())
    }

    /// The message of that name; `None` exactly where none is held. It takes constant time.
    pub fn get(&self, name: Name) -> Option<&M>
        ensures { option_copied result ≡ held self.now.messages name }
    {
        self.arrived.get(&name)
    }

    /// Takes the message of that name out and gives it; `None` exactly where none is held, and then nothing is changed. The last
    /// message takes its place. It takes constant time and no memory.
    pub fn remove(&mut self, name: Name) -> Option<M>
        ensures given { result ≡ held self.old.messages name }
        ensures map { held self.new.messages ≡ without (held self.old.messages) name }
        ensures order { self.new.messages ≡ swap_remove_entry (name_eq name) self.old.messages }
        ensures unchanged { IfNone result (self.new.messages ≡ self.old.messages) }
    {
        self.arrived.swap_remove(&name)
    }

    /// The k-th message with its name: each held message once for k below `len`, and `None` from there on. It takes constant time.
    pub fn at(&self, k: usize) -> Option<(Name, &M)>
        ensures entry { option_map (λ p. (p.0, p.1.now)) result ≡ slice_get self.now.messages k }
        ensures own { IfSome result (λ p. held self.now.messages p.0 ≡ Some p.1.now) }
    {
        let (name, msg) = self.arrived.get_index(k)?;
        Some((*name, msg))
    }

    /// Takes the k-th message out and gives it with its name; `None` exactly where there are at most k, and then nothing is changed. The
    /// others stay in their order. It takes no memory, and time in the messages behind it.
    pub fn remove_at(&mut self, k: usize) -> Option<(Name, M)>
        ensures given { result ≡ slice_get self.old.messages k }
        ensures order { self.new.messages ≡ without_place self.old.messages k }
        ensures unchanged { IfNone result (self.new.messages ≡ self.old.messages) }
    {
        self.arrived.shift_remove_index(k)
    }
}
