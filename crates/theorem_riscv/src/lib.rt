// The RISC-V programs that the machine runs, under the protocol's rules: they are of the kind that the theorem asks for, and so
// their runs are serial. Each law is the contract of an empty function; nothing here depends on code.
#![tactic(auto)]

ghost use Rattle.theorem_riscv.specs.CounterImage.{ImagesAreLaid, ImageCounts};
ghost use Rattle.theorem_riscv.specs.Given.{RunsGiveThePlainMachine, CommittedTidsWereGrantedOnce};
ghost use Rattle.theorem_riscv.specs.Going.{RiscvNeverStuck, RiscvCoresGoOn, RiscvPickedEndsDone};
ghost use Rattle.theorem_riscv.specs.Suiting.{RiscvProgramsSuit, RiscvRunsAreSerial};

/// From each start with settings that are allowed the RISC-V program suits the protocol: each access that doesn't trap is aligned
/// and lies in RAM, what is stored fits, and RAM begins with 32-bit words.
pub fn riscv_programs_suit()
    ensures suit { RiscvProgramsSuit }
{}

/// Whatever events the protocol's rules allow from such a start, with all cores at their entries, the state that they lead to is
/// what the plain RISC-V machine gives that executes the committed transactions one after another.
pub fn riscv_runs_are_serial()
    ensures serial { RiscvRunsAreSerial }
{}

/// The same as one equation: the serial execution of the commits from the plain machine's start gives just these commits, and the
/// machine that is committed: each word as it is seen, and of each core the checkpoint, whether and how it has halted, and what
/// its commits printed.
pub fn runs_give_the_plain_machine()
    ensures given { RunsGiveThePlainMachine }
{}

/// Along every run the granted TIDs count from 1, each is granted to one core, and the commits' TIDs rise strictly: each was granted
/// to the core that commits, and is committed once.
pub fn committed_tids_were_granted_once()
    ensures tids { CommittedTidsWereGrantedOnce }
{}

/// What these laws ask is met: two images of eight instructions on two cores, with settings that are allowed, have a run in which the
/// first core commits alone after an overflow, and the second after a violation. Both halt; the commits, the cores and the words at
/// the end are computed.
pub fn a_riscv_image_runs()
    ensures laid { ImagesAreLaid }
    ensures counts { ImageCounts }
{}

/// After every run from such a start the machine is done, or some event is useful; for each core that hasn't halted one is another
/// than to deliver another core's request for a TID or to execute another core that has none; and a schedule that a chooser picks has
/// an event for each random word, or ends where all is done.
pub fn riscv_machines_are_never_stuck()
    ensures done { RiscvNeverStuck }
    ensures goes_on { RiscvCoresGoOn }
    ensures picked { RiscvPickedEndsDone }
{}
