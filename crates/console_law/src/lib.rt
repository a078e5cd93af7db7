//! What `count --consoles` tells of a run's commits as they come is what the run's report says of them at its end. There is no code here:
//! the contracts are laws.
#![tactic(auto)]

ghost use Rattle.console_law.specs.Told.{ConsolesAreTheReports, NotedAreTheCommits};

/// After every run of the rules the commits that its events noted, each put behind those of smaller TIDs, are the run's commits: so
/// nothing is lost where they are handed on and not kept.
pub fn noted_commits_are_the_commits()
    ensures { NotedAreTheCommits }
{}

/// After every run of the rules what the commits of a core printed, in the order in which they were noted, is the console of this core in
/// the report: so the lines of a core are in the right order, though those of all cores aren't by TID.
pub fn consoles_are_the_reports()
    ensures { ConsolesAreTheReports }
{}
