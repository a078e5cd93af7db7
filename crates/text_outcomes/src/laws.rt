// Laws of tables. They have no code: their contracts are the laws.
ghost use Rattle.text_outcomes.specs.Laws.{TablesTellEveryEnd, TablesTellOnlyEnds};

/// Where an exploration is done its table has, for each serial execution of the program after which all cores have ended, an outcome
/// with just the lines that are told of the machine then.
pub fn tables_tell_every_end()
    ensures { TablesTellEveryEnd }
{}

/// The transactions that a table lists under an outcome are a serial execution of the program, after which all cores have ended, and the
/// outcome's lines are those that are told of the machine then.
pub fn tables_tell_only_ends()
    ensures { TablesTellOnlyEnds }
{}
