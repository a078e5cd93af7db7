//! What holds of the lines of a trace: the lines of its events are the schedule, and the lines of its facts agree with the run and with
//! one another. There is no code here: the contracts are laws.
#![tactic(auto)]

ghost use Rattle.trace_law.specs.Commits.{CommitLines};
ghost use Rattle.trace_law.specs.Lines.{EventLines, LinesAreTold, ScheduleLines};
ghost use Rattle.trace_law.specs.Sent.{ConsumedOnce, HeardWasSent, SentNumbered};

/// The text of a trace is written from the list of its events with what each did; its lines that don't begin with a space are the lines of
/// the events; and with a schedule's first lines and its last one they are the text of the schedule with these events.
pub fn event_lines_are_the_schedule()
    ensures told { LinesAreTold }
    ensures events { EventLines }
    ensures schedule { ScheduleLines }
{}

/// The commits that are told, put in by rising TID, are the commits of the run.
pub fn commit_lines_are_the_commits()
    ensures { CommitLines }
{}

/// The messages that are told as sent from one node to another are numbered 0, 1, 2 and so on, in the order told.
pub fn sent_lines_are_numbered()
    ensures { SentNumbered }
{}

/// What is told to be taken, to be dropped or to have made a directory ask was told to be sent before. A message is consumed by one event
/// where it was sent and isn't in flight, and else by none.
pub fn messages_are_consumed_once()
    ensures heard { HeardWasSent }
    ensures once { ConsumedOnce }
{}
