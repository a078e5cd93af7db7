// A checkpoint stands for one state.
ghost use Rattle.checkpoint_text.specs.Laws.{TextsTellMachinesApart};

/// A law: machines of one program that have the same text are in the same state.
pub fn texts_tell_machines_apart()
    ensures { TextsTellMachinesApart }
{}
