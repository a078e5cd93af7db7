// Laws of words. They have no code: their contracts are the laws.
ghost use Rattle.tcc_words.specs.Bounds.{CommandsAreInBounds};
ghost use Rattle.tcc_words.specs.Laws.{CommandsAreNotRefused, WordsAskForOneCommand};

/// Words ask for one command at most, and words that ask for one are refused only for want of memory.
pub fn words_ask_for_one_command()
    ensures one { WordsAskForOneCommand }
    ensures not_refused { CommandsAreNotRefused }
{}

/// The settings of a command are allowed, and its numbers are within their bounds.
pub fn commands_are_in_bounds()
    ensures { CommandsAreInBounds }
{}
