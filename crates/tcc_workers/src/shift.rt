// The turns that one worker takes.
ghost use Rattle.std.specs.Prelude.{◌≡◌, ◌+◌, ◌%◌, ◌^◌, ◌<◌, ◌≤◌, OnErr, is_ok, min};
ghost use Rattle.tcc_workers.specs.Calls.{TookTurns};
ghost use Rattle.tcc_workers.specs.Words.{words_of};
ghost use Rattle.tcc_base.specs.Limits.{run_limit};

use crate::turns::Turns;
use apart_node::Act;
use rand_core::SeedableRng;
use rand_core::utils::NextWord;
use rand_pcg::Lcg64Xsh32;
use tcc_base::NoMemory;

/// How one worker takes turns: until its ticket counts so many events, or so many turns in a row moved nothing. A turn has so many acts at
/// most.
#[derive(Clone, Copy, Debug)]
pub struct Shift {
    pub worker: u32,
    pub seed: u64,
    pub until: u64,
    pub patience: u32,
    pub batch: u16,
}

impl Shift {
    /// The node of turn number `turn`.
    fn node(&self, turn: u64, nodes: u32) -> u32
        requires nodes { 0 < nodes }
        requires fits { self.now.worker + turn < 2 ^ 64 }
        ensures at { result ≡ (self.now.worker + turn) % nodes }
        ensures inside { result < nodes }
    {
        ((u64::from(self.worker) + turn) % u64::from(nodes)) as u32
    }

    /// The generator of the worker's picks.
    fn words(&self) -> Lcg64Xsh32
        ensures { result ≡ words_of self.now.seed self.now.worker }
    {
        Lcg64Xsh32::seed_from_u64(self.seed.wrapping_add(u64::from(self.worker)))
    }

    /// How many acts a turn has at most, where so many are left to do.
    fn most(&self, left: u64) -> u32
        ensures { result ≡ min self.now.batch left }
    {
        left.min(u64::from(self.batch)) as u32
    }

    /// Takes turns with this ticket. Before turn k it passes the gate for (worker, k). The turn is at `node(k)`, under one lock: acts of
    /// that node one after another, each with the next word of the generator, up to the first that doesn't move, at most `batch`, and no
    /// more than there are events left. It ends when the ticket counts `until` events, after `patience` turns in a row that moved nothing,
    /// or at want of memory, which is its error.
    pub fn take_turns<K, P: Turns<K>>(&self, place: &P, ticket: &mut K) -> Result<(), NoMemory>
        requires counted { P.moved ticket.old ≤ self.now.until }
        requires until { self.now.until ≤ run_limit }
        requires batch { 1 ≤ self.now.batch }
        requires parts { 0 < P.parts ticket.old }
        ensures took { TookTurns self.now P.count (P.moved ticket.old) (P.moved ticket.new) (P.calls ticket.old) (P.calls ticket.new)
            (is_ok result) }
        ensures few { P.moved ticket.new ≤ self.now.until }
        ensures short { OnErr result (P.moved ticket.new < self.now.until) }
        ensures parts { P.parts ticket.new ≡ P.parts ticket.old }
    {
        let nodes = place.nodes();
        let mut words = self.words();
        let mut idle = 0;
        for turn in 0..(self.until + 1) * u64::from(self.patience) {
            let left = self.until - place.moved(ticket);
            if left == 0 || idle == self.patience {
                break;
            }
            place.pass(ticket, self.worker, turn);
            let acts = place.turn(ticket, self.node(turn, nodes), &mut words, self.most(left));
            if acts.last == Act::Memory {
                return Err(NoMemory);
            }
            if acts.moved() > 0 {
                idle = 0;
            } else {
                idle += 1;
            }
        }
        Ok(())
    }
}
