// What workers call in their turns, at a stand-in for a farm that lists their calls.
ghost use Rattle.std.specs.Prelude.{◌≡◌, ◌+◌, ◌^◌, ◌<◌, ◌≤◌, suc, [], ◌∷◌, Some, None, if◌then◌else◌};
ghost use Rattle.node_locks.specs.Turns.{IsTurn, after_words, entries_by, moved_in};
ghost use Rattle.tcc_workers.specs.Calls.{Made, acts_at};
ghost use Rattle.tcc_workers.specs.declared.turns.Call.TheVariants.{Turn as Acted};

use apart_node::Act;
use node_locks::Acts;
use rand_core::SeedableRng;
use rand_core::utils::NextWord;
use rand_pcg::Lcg64Xsh32;
use std::alloc::Global;
use std::test::Fail;
use tcc_workers::{Call, Shift, Turns};

/// Three nodes. The acts at them have these answers, and once these are spent find nothing to do.
#[derive(Drop)]
struct Answering<'a> {
    answers: &'a [Act],
}

const NODES: u32 = 3;

/// What was called, in order, as long as there was memory for it, how many acts there were, and how many of them moved.
#[derive(Drop)]
struct Called {
    list: Vec<Call>,
    lost: bool,
    acts: usize,
    moved: u64,
}

impl Called {
    fn new(alloc: Global) -> Called
        ensures { result.moved ≡ 0 }
    {
        Called {
            list: Vec::new(alloc),
            lost: false,
            acts: 0,
            moved: 0,
        }
    }

    fn add(&mut self, call: Call)
        ensures made { Made (if self.old.lost then None else Some self.old.list.items)
            (if self.new.lost then None else Some self.new.list.items) (call ∷ []) }
        ensures moved { self.new.moved ≡ self.old.moved }
    {
        if self.list.push(call).is_err() {
            self.lost = true;
        }
    }
}

impl<'a> Answering<'a> {
    /// One act, with the next answer.
    fn act(&self, called: &mut Called, node: u32, pick: u32) -> Act
        requires few { called.old.moved < 2 ^ 62 }
        ensures made { Made (if called.old.lost then None else Some called.old.list.items)
            (if called.new.lost then None else Some called.new.list.items) (Acted node pick ∷ []) }
        ensures moved { called.new.moved ≡ called.old.moved + entries_by result }
    {
        called.add(Call::Turn(node, pick));
        let answer = match self.answers.get(called.acts) {
            Some(answer) => *answer,
            None => Act::Idle,
        };
        called.acts = called.acts.wrapping_add(1);
        if answer == Act::Moved {
            called.moved += 1;
        }
        answer
    }

    /// A turn.
    fn acts(&self, called: &mut Called, node: u32, words: &mut Lcg64Xsh32, most: u32) -> Acts
        requires most { 0 < most }
        requires few { called.old.moved + most ≤ 2 ^ 62 }
        ensures turn { IsTurn most result }
        ensures drawn { words.new ≡ after_words (suc result.before) words.old }
        ensures made { Made (if called.old.lost then None else Some called.old.list.items)
            (if called.new.lost then None else Some called.new.list.items) (acts_at node words.old (suc result.before)) }
        ensures moved { called.new.moved ≡ called.old.moved + moved_in result }
    {
        for before in 0..most - 1 {
            let last = self.act(called, node, words.next_word());
            if last != Act::Moved {
                return Acts { before, last };
            }
        }
        Acts {
            before: most - 1,
            last: self.act(called, node, words.next_word()),
        }
    }
}

impl<'a> Turns<Called> for Answering<'a> {
    ghost use Rattle.std.specs.Prelude.{Some, None, if◌then◌else◌};

    ghost calls = { λ k. if k.lost then None else Some k.list.items };

    ghost moved = { λ k. k.moved };

    ghost parts = { λ k. 1 };

    ghost count = { 3 };

    fn nodes(&self) -> u32 {
        NODES
    }

    fn moved(&self, called: &Called) -> u64 {
        called.moved
    }

    fn pass(&self, called: &mut Called, worker: u32, turn: u64) {
        called.add(Call::Pass(worker, turn));
    }

    fn turn(&self, called: &mut Called, node: u32, words: &mut Lcg64Xsh32, most: u32) -> Acts {
        self.acts(called, node, words, most)
    }
}

/// The first calls of a worker with these words, as they are to be, for so many turns: turn k is at the node (worker + k) mod n, after the
/// gate. The first turns have so many acts as `acts` says, and the others have one, each with the next word.
fn expected(alloc: Global, shift: &Shift, turns: u64, acts: &[u32]) -> Result<Vec<Call>, Fail> {
    let mut words = Lcg64Xsh32::seed_from_u64(shift.seed.wrapping_add(u64::from(shift.worker)));
    let mut list = Vec::new(alloc);
    for turn in 0..turns {
        let node = u64::from(shift.worker).wrapping_add(turn) % u64::from(NODES);
        list.push(Call::Pass(shift.worker, turn))?;
        let count = match acts.get(turn as usize) {
            Some(count) => *count,
            None => 1,
        };
        for _ in 0..count {
            list.push(Call::Turn(node as u32, words.next_word()))?;
        }
    }
    Ok(list)
}

const MOVED: Act = Act::Moved;

const IDLE: Act = Act::Idle;

const MEMORY: Act = Act::Memory;

/// Ends when three acts have moved, or when four turns in a row have found nothing to do. A turn is one act.
const SHIFT: Shift = Shift {
    worker: 2,
    seed: 5,
    until: 3,
    patience: 4,
    batch: 1,
};

/// The same with two acts in a turn at most.
const TWO: Shift = Shift { batch: 2, ..SHIFT };

/// The same with 64 acts in a turn at most.
const MANY: Shift = Shift { batch: 64, ..SHIFT };

/// A shift, what its acts answer, how many turns there are, how many acts the first of these have, and whether memory suffices.
type Row = (Shift, &'static [Act], u64, &'static [u32], bool);

/// Turns of one act.
const SINGLE: [Row; 7] = [
    (
        SHIFT,
        &[IDLE, MOVED, MOVED, IDLE, IDLE, MOVED],
        6,
        &[],
        true,
    ),
    (SHIFT, &[MOVED, IDLE, IDLE, IDLE, MOVED], 9, &[], true),
    (SHIFT, &[MOVED, IDLE, MEMORY, MOVED], 3, &[], false),
    (SHIFT, &[], 4, &[], true),
    (Shift { until: 0, ..SHIFT }, &[MOVED], 0, &[], true),
    // as the calling thread goes round
    (
        Shift {
            worker: 0,
            patience: NODES,
            ..SHIFT
        },
        &[MOVED, IDLE, IDLE],
        4,
        &[],
        true,
    ),
    // seed and number together are past the largest number
    (
        Shift {
            seed: 0xffff_ffff_ffff_ffff,
            patience: 1024,
            ..SHIFT
        },
        &[],
        1024,
        &[],
        true,
    ),
];

/// Turns of several acts.
const SEVERAL: [Row; 8] = [
    // no more acts than events are left
    (TWO, &[MOVED, MOVED, MOVED, MOVED], 2, &[2, 1], true),
    (MANY, &[MOVED, MOVED, MOVED, MOVED], 1, &[3], true),
    (Shift { until: 70, ..MANY }, &[MOVED; 80], 2, &[64, 6], true),
    // a turn ends at the first act that finds nothing to do
    (TWO, &[MOVED, IDLE, IDLE, MOVED, MOVED], 3, &[2, 1, 2], true),
    // a turn in which something moved isn't idle
    (
        MANY,
        &[IDLE, IDLE, IDLE, MOVED, IDLE],
        8,
        &[1, 1, 1, 2],
        true,
    ),
    (MANY, &[MOVED, MOVED, IDLE], 5, &[3], true),
    // want of memory in a turn
    (TWO, &[MOVED, MEMORY, MOVED], 1, &[2], false),
    (MANY, &[IDLE, MOVED, MEMORY, MOVED], 2, &[1, 2], false),
];

/// Whether the calls of this shift are those that are expected.
fn check(alloc: Global, row: Row) -> Result<bool, Fail> {
    let (shift, answers, turns, acts, suffices) = row;
    if shift.until > 4_194_304 || shift.batch == 0 {
        return Err("too many events, or turns of no act")?;
    }
    let mut called = Called::new(alloc);
    let ended = shift.take_turns(&Answering { answers }, &mut called);
    let list = expected(alloc, &shift, turns, acts)?;
    Ok(called.list.as_slice() == list.as_slice() && ended.is_ok() == suffices)
}

#[test]
fn a_worker_passes_the_gate_and_takes_the_turn(rt: HostRuntime) -> Result<(), Fail> {
    for row in SINGLE {
        assert!(rt; check(rt.alloc(), row)?);
    }
    Ok(())
}

#[test]
fn a_turn_goes_on_as_long_as_its_acts_move(rt: HostRuntime) -> Result<(), Fail> {
    for row in SEVERAL {
        assert!(rt; check(rt.alloc(), row)?);
    }
    Ok(())
}
