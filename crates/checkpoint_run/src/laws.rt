// A run's text stands for one run.
ghost use Rattle.checkpoint_run.specs.Laws.{RunsGoOnFromTexts, TextsTellRunsApart};

/// A law: runs of one program that have the same text were counted alike, by the same words, and their machines are in the same state.
pub fn texts_tell_runs_apart()
    ensures { TextsTellRunsApart }
{}

/// A law: what is read from a run's text is the run by as many steps of its seed as that was, so that it goes on as that would.
pub fn runs_go_on_from_texts()
    ensures { RunsGoOnFromTexts }
{}
