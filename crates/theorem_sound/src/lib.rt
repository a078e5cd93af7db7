// What a machine's state keeps to, however it came about: what a reader of a state can test, and what each event keeps. Each law is the
// contract of an empty function; nothing here depends on code.
#![tactic(auto)]

ghost use Rattle.theorem_sound.specs.Laws.{CommitsAnew, SoundAfterEvent, SoundAtStart, SoundWithFewer};

/// Of the RISC-V programs that the machine runs, with settings that are allowed: a state is sound where each message in flight is between
/// nodes that the machine has, of a line of memory that is at home there and of no TID that is still to be granted; where modified and
/// dirty words are of memory, owners exist and marked lines are at home; where a TID is in one place; and where attempts, links and the
/// next TID are counted by the events. It is so at the start, and after each event that is enabled in a sound state.
pub fn machines_stay_sound()
    ensures start { SoundAtStart }
    ensures after { SoundAfterEvent }
{}

/// In a sound state no event commits a TID that was committed before; and to forget commits keeps a state sound.
pub fn commits_are_of_new_tids()
    ensures anew { CommitsAnew }
    ensures fewer { SoundWithFewer }
{}
