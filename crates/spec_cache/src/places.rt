// The places of ways whose frames may be marked, so that a change of all marks visits no others.
ghost use Rattle.std.specs.Prelude.{◌≡◌, ◌<◌, ◌≤◌, ℕ, [], length, get_or, Contains, IfOk, replicate, true, false};

use std::alloc::Global;
use std::marker::Model;
use tcc_base::NoMemory;

/// Places below a size, each noted once. All memory that it will need is taken by `new`.
#[derive(Debug, Drop)]
pub struct Places {
    flags: Vec<bool>,
    places: Vec<usize>,
}

impl Model for Places {
    ghost use Rattle.std.specs.Prelude.{length, ◌≤◌, vec_capacity};
    ghost use Rattle.spec_cache.specs.Places.{Noted, IsNoted};

    ghost Value = { Noted };

    ghost view = { λ p. record { size = length p.flags.items; places = p.places.items } };

    ghost invariant = { λ p. IsNoted (length p.flags.items) p.flags.items p.places.items × (length p.flags.items ≤ vec_capacity p.places) };
}

impl Places {
    /// No place below `size` noted.
    pub fn new(alloc: Global, size: usize) -> Result<Places, NoMemory>
        ensures { IfOk result (λ p. p ≡ record { size = size; places = [] }) }
    {
        let flags = no_flags(alloc, size)?;
        let Ok(places) = Vec::with_capacity(alloc, size) else {
            return Err(NoMemory);
        };
        Ok(Places { flags, places })
    }

    /// Notes a place.
    pub fn note(&mut self, at: usize)
        requires { at < self.old.size }
        ensures size { self.new.size ≡ self.old.size }
        ensures noted { Contains self.new.places at }
        ensures keeps { (i : ℕ) → Contains self.old.places i → Contains self.new.places i }
    {
        if !self.flags[at] {
            self.flags[at] = true;
            self.places.push_reserved(at);
        }
    }

    /// The noted places.
    pub fn as_slice(&self) -> &[usize]
        ensures places { result.now ≡ self.now.places }
        ensures inside { (j : ℕ) → j < length self.now.places → get_or self.now.places j 0 < self.now.size }
    {
        self.places.as_slice()
    }

    /// Forgets all noted places, in as many steps as there are.
    pub fn clear(&mut self)
        ensures { self.new ≡ record { size = self.old.size; places = [] } }
    {
        unflag(&mut self.flags, &self.places);
        self.places.clear();
    }
}

/// As many flags, none set.
fn no_flags(alloc: Global, size: usize) -> Result<Vec<bool>, NoMemory>
    ensures { IfOk result (λ v. v.items ≡ replicate size false) }
{
    let Ok(mut flags) = Vec::with_capacity(alloc, size) else {
        return Err(NoMemory);
    };
    for _ in 0..size {
        flags.push_reserved(false);
    }
    Ok(flags)
}

/// Takes the flags of these places away.
fn unflag(flags: &mut [bool], places: &[usize])
    requires inside { (j : ℕ) → j < length places.now → get_or places.now j 0 < length flags.old }
    requires found { (i : ℕ) → get_or flags.old i false ≡ true → Contains places.now i }
    ensures { (i : ℕ) → get_or flags.new i false ≡ false }
{
    for at in places {
        flags[*at] = false;
    }
}
