// Laws of lists, and of the texts of machines. They have no code: their contracts are the laws.
ghost use Rattle.serial_tool.specs.Laws.{FaultsHaveNoList, ListsAreAlike, FaultsAreAlike, RunFaultsAreAlike, RunFaultsHaveNoRun};
ghost use Rattle.serial_tool.specs.Laws.{MachinesAreAlike, PieceFaultsAreAlike, PieceFaultsHaveNoRun, PiecesJoin};

/// Two answers about the same bytes and the same number of cores agree: there is one list at most, or one first faulty line, and not
/// both.
pub fn lists_are_read_alike()
    ensures one { ListsAreAlike }
    ensures one_fault { FaultsAreAlike }
    ensures not_both { FaultsHaveNoList }
{}

/// Two answers about the same list agree: one order at most is the first that can't be executed, and then the list has no serial
/// execution.
pub fn lists_are_run_alike()
    ensures one_fault { RunFaultsAreAlike }
    ensures not_both { RunFaultsHaveNoRun }
{}

/// The same of executions that begin at any machine.
pub fn pieces_are_run_alike()
    ensures one_fault { PieceFaultsAreAlike }
    ensures not_both { PieceFaultsHaveNoRun }
{}

/// A list may be executed in pieces: executing it is executing its first orders, and then the others from the machine after them, with
/// the TID of the last of them; the commits are those of the pieces, one after another.
pub fn pieces_join()
    ensures { PiecesJoin }
{}

/// A text is that of one machine: two with RAM of one size and one text have the same last TID, the same RAM, and cores with the same
/// registers and pc that ended alike.
pub fn texts_tell_machines_apart()
    ensures { MachinesAreAlike }
{}
