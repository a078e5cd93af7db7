// Laws of the grammar. They have no code: their contracts are the laws.
ghost use Rattle.std.specs.Prelude.{◌≡◌, ℕ, List, Result, IfOk};
ghost use Rattle.tcc_msg.specs.declared.event.Schedule.{Schedule};
ghost use Rattle.schedule_text.specs.WellFormed.{IsWellFormed};
ghost use Rattle.schedule_text.specs.Grammar.{text_of};
ghost use Rattle.schedule_text.specs.Faults.{IsFirstFault, Gives, IfLine};
ghost use Rattle.schedule_text.specs.declared.fault.TextFault.{TextFault};

/// Two well-formed schedules with one text are one.
pub fn texts_tell_schedules_apart()
    ensures { (s t : Schedule) → IsWellFormed s → IsWellFormed t → text_of s ≡ text_of t → s ≡ t }
{}

/// Bytes have one first faulty line at most, and none where they are the text of a well-formed schedule.
pub fn the_first_fault_is_one()
    ensures one { (bytes : List ℕ) (j k : ℕ) → IsFirstFault j bytes → IsFirstFault k bytes → j ≡ k }
    ensures none { (s : Schedule) (k : ℕ) → IsWellFormed s → IsFirstFault k (text_of s) → ⊥ }
{}

/// What was written is read as the same schedule: an answer to a schedule's text of which holds what `read` says of schedules and
/// of faulty lines is that schedule, unless it is want of memory.
pub fn what_was_written_is_read()
    ensures { (s : Schedule) (answer : Result Schedule TextFault) → IsWellFormed s
        → IfOk answer (λ t. IsWellFormed t × (text_of s ≡ text_of t)) → IfLine answer (λ k. IsFirstFault k (text_of s))
        → Gives answer s }
{}
