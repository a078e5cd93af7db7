// Lists and texts that contracts see as lists, and the answer of a call that found no memory.
ghost use Rattle.std.specs.Prelude.{List as Seq, ℕ, ◌≡◌, ◌-◌, ◌<◌, ◌↔◌, [], ◌∷◌, ◌++◌, length, take, is_ok, IsSome, if◌then◌else◌};
ghost use Rattle.std.specs.String.{string_bytes};
ghost use Rattle.std.specs.Option.{option_to_list};

use std::alloc::Global;
use std::marker::Model;

/// Out of memory. The call says what it left behind.
#[derive(Clone, Copy, Debug, PartialEq, Eq)]
pub struct NoMemory;

/// A vector that contracts see as the list of its items.
#[derive(Debug, Drop)]
pub struct List<T> {
    pub items: Vec<T>,
}

impl<T> Model for List<T> {
    ghost Value = { Seq T };

    ghost view = { λ l. l.items.items };
}

impl<T> List<T> {
    /// The list without items. Takes no memory.
    pub fn new(alloc: Global) -> List<T>
        ensures { result ≡ [] }
    {
        List {
            items: Vec::new(alloc),
        }
    }

    /// Appends an item; after want of memory the list is as before.
    pub fn push(&mut self, item: T) -> Result<(), NoMemory>
    where
        T: Drop,
        ensures { self.new ≡ (if is_ok result then self.old ++ item ∷ [] else self.old) }
    {
        match self.items.push(item) {
            Ok(()) => Ok(()),
            Err(_) => Err(NoMemory),
        }
    }

    /// Takes the last item away; None exactly where there is none. Takes no memory.
    pub fn pop(&mut self) -> Option<T>
        ensures variant { IsSome result ↔ (0 < length self.old) }
        ensures rest { self.new ≡ take (length self.old - 1) self.old }
        ensures items { self.old ≡ self.new ++ option_to_list result }
    {
        self.items.pop()
    }
}

/// A text that contracts see as the list of its bytes.
#[derive(Debug, Drop)]
pub struct Text {
    pub items: String,
}

impl Model for Text {
    ghost Value = { Seq ℕ };

    ghost view = { λ t. string_bytes t.items };
}
