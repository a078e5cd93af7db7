// A run that tells each of its events as a text, and the loop that writes these texts.
ghost use Rattle.std.specs.Prelude.{◌≡◌, ◌++◌, ◌<◌, ◌≤◌, ℕ, List as Seq, [], IfErr, IfOk, IsTrue, OnOk, string_bytes};
ghost use Rattle.text_runs.specs.Pieces.{IsStopped, IsTold, Tells};

use crate::pieces::{Broken, put_piece};
use std::alloc::Global;
use tcc_base::NoMemory;
use tcc_world::{Sink, SinkFailed};

/// A run that goes on event by event, and tells each event as a text.
pub trait TextRun {
    /// Events with these texts, in their order, lead from the one to the other.
    ghost leads: { Self → Self → Seq (Seq ℕ) → Type 0 };

    /// So many events come at most.
    ghost left: { Self → ℕ };

    /// It can take its next event.
    ghost can: { Self → Type 0 };

    /// No event comes any more.
    ghost ended: { Self → Type 0 };

    /// Takes the next event, where one comes, and appends its text where that is to be shown. Says whether one came. After want of memory
    /// neither the run nor the text is of any use.
    fn tell_next(&mut self, shown: bool, text: &mut String) -> Result<bool, NoMemory>
        requires { can self.old }
        ensures tells { IfOk result
            (Tells (leads self.old self.new) (ended self.new) shown (string_bytes text.old) (string_bytes text.new)) }
        ensures fewer { IfOk result (λ more. IsTrue more → left self.new < left self.old) }
        ensures can_again { OnOk result (can self.new) };

    ghost stays: { (r : Self) → leads r r [] };

    ghost goes_on: { (r s t : Self) (xs ys : Seq (Seq ℕ)) → leads r s xs → leads s t ys → leads r t (xs ++ ys) };
}

/// Takes all events that come, at most so many, and appends the texts of those from number `from` on, where the first is number 0. What is
/// held is written piece by piece. The time is that of the events and of their texts; the memory is that of the run and of a piece.
pub fn tell_events<R: TextRun, O: Sink>(
    alloc: Global,
    run: &mut R,
    most: u32,
    from: u64,
    held: &mut String,
    out: &mut O,
) -> Result<(), Broken>
    requires can { R.can run.old }
    requires enough { R.left run.old ≤ most }
    ensures told { OnOk result (IsTold (R.leads run.old run.new) (R.ended run.new) from (string_bytes held.old) (string_bytes held.new)
        (O.page out.old).bytes (O.page out.new).bytes) }
    ensures faults_stay { OnOk result ((O.page out.old).faults ≤ (O.page out.new).faults) }
    ensures stopped { IfErr result (IsStopped (R.leads run.old) from (string_bytes held.old)
        (record { before = O.page out.old; after = O.page out.new })) }
{
    for number in 0..(most as u64 + 1) {
        match run.tell_next(from <= number, held) {
            Ok(true) => {}
            Ok(false) => return Ok(()),
            Err(NoMemory) => return Err(Broken::Memory),
        }
        match put_piece(alloc, held, out) {
            Ok(()) => {}
            Err(SinkFailed) => return Err(Broken::Output),
        }
    }
    Ok(())
}
