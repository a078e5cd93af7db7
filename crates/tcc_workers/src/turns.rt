// What a worker calls in its turns, and these calls at a farm.
ghost use Rattle.std.specs.Prelude.{◌≡◌, ◌+◌, ◌^◌, ◌<◌, ◌≤◌, ℕ, suc, [], ◌∷◌, List, Option};
ghost use Rattle.node_locks.specs.Turns.{IsTurn, after_words, moved_in};
ghost use Rattle.tcc_workers.specs.Calls.{Made, acts_at};

use node_locks::{Acts, Farm, Setup, Ticket};
use rand_pcg::Lcg64Xsh32;
use std::sync::Wait;
use std::sync::ledger::Ledger;
use tcc_world::Gate;

/// A call of a worker: it passes the gate before its turn of this number, or has a node act with a word, once or several times in its turn.
/// A farm makes none of these; a stand-in for it lists them.
#[derive(Clone, Copy, Debug, PartialEq, Eq)]
pub enum Call {
    Pass(u32, u64),
    Turn(u32, u32),
}

/// What a worker calls: a gate before each turn, and the turn. K is what turns are taken with, and counts the acts that moved.
pub trait Turns<K> {
    ghost use Rattle.tcc_workers.specs.declared.turns.Call.{Call};
    ghost use Rattle.tcc_workers.specs.declared.turns.Call.TheVariants.{Pass, Turn};

    /// The calls so far, where they are told.
    ghost calls: { K → Option (List Call) };

    /// How many acts moved.
    ghost moved: { K → ℕ };

    /// In how many parts the right to take turns can be cut.
    ghost parts: { K → ℕ };

    /// How many nodes there are.
    ghost count: { ℕ };

    /// How many nodes there are.
    fn nodes(&self) -> u32
        ensures count { result ≡ count }
        ensures some { 0 < result };

    /// How many acts moved.
    fn moved(&self, ticket: &K) -> u64
        ensures { result ≡ moved ticket.now };

    /// Passes the gate before a turn.
    fn pass(&self, ticket: &mut K, worker: u32, turn: u64)
        ensures made { Made (calls ticket.old) (calls ticket.new) (Pass worker turn ∷ []) }
        ensures moved { moved ticket.new ≡ moved ticket.old }
        ensures parts { parts ticket.new ≡ parts ticket.old };

    /// Takes a turn at a node: so many acts at most, each with the next word, up to the first that doesn't move.
    fn turn(&self, ticket: &mut K, node: u32, words: &mut Lcg64Xsh32, most: u32) -> Acts
        requires exists { node < count }
        requires most { 0 < most }
        requires few { moved ticket.old + most ≤ 2 ^ 62 }
        requires some { 0 < parts ticket.old }
        ensures turn { IsTurn most result }
        ensures drawn { words.new ≡ after_words (suc result.before) words.old }
        ensures made { Made (calls ticket.old) (calls ticket.new) (acts_at node words.old (suc result.before)) }
        ensures moved { moved ticket.new ≡ moved ticket.old + moved_in result }
        ensures parts { parts ticket.new ≡ parts ticket.old };
}

/// Turns at a farm, after a gate. They are told nowhere.
#[derive(Drop)]
pub struct AtFarm<'a, W: Setup, E: Ledger, T: Ledger, R: Wait, G: Gate> {
    pub rt: &'a R,
    pub farm: &'a Farm<W, E, T>,
    pub gate: &'a G,
}

impl<'a, W: Setup, E: Ledger, T: Ledger, R: Wait, G: Gate> Turns<Ticket<T>>
    for AtFarm<'a, W, E, T, R, G> {
    ghost use Rattle.std.specs.Prelude.{None};
    ghost use Rattle.rules_apart.specs.Fitting.{node_count};

    ghost calls = { λ k. None };

    ghost moved = { λ k. k.moved };

    ghost parts = { λ k. k.parts };

    ghost count = { node_count W.code.settings };

    fn nodes(&self) -> u32 {
        self.farm.nodes()
    }

    fn moved(&self, ticket: &Ticket<T>) -> u64 {
        ticket.moved()
    }

    fn pass(&self, _ticket: &mut Ticket<T>, worker: u32, turn: u64) {
        self.gate.pass(worker, turn);
    }

    fn turn(&self, ticket: &mut Ticket<T>, node: u32, words: &mut Lcg64Xsh32, most: u32) -> Acts {
        self.farm.turn(self.rt, node, words, most, ticket)
    }
}
