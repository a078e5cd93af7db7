// What is written down of events as they are taken.
ghost use Rattle.std.specs.Prelude.{◌≡◌, ◌++◌, ℕ, List as Seq, [], OnOk};
ghost use Rattle.tcc_msg.specs.declared.event.Event.{Event as Listed};

use tcc_base::NoMemory;
use tcc_msg::Event;

/// Who is told of each event that a machine takes, and writes it down.
pub trait Recorder {
    /// The bytes that stand there.
    ghost bytes: { Self → Seq ℕ };

    /// What an event adds to them.
    ghost line: { Listed → Seq ℕ };

    /// Writes down an event that was taken. After want of memory a part of what it adds may stand there.
    fn note(&mut self, event: &Event) -> Result<(), NoMemory>
        ensures { OnOk result (bytes self.new ≡ bytes self.old ++ line event.now) };
}

/// Nothing is written down.
#[derive(Clone, Copy, Debug, PartialEq, Eq)]
pub struct Unrecorded;

impl Recorder for Unrecorded {
    ghost bytes = { λ _. [] };

    ghost line = { λ _. [] };

    fn note(&mut self, _event: &Event) -> Result<(), NoMemory> {
        Ok(())
    }
}
