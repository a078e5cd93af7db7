// All results that a program can have, searched and written as a table.
ghost use Rattle.std.specs.Prelude.{◌≡◌, ◌≤◌, IfErr, IfOk};
ghost use Rattle.image_load.specs.Contents.{started};
ghost use Rattle.tcc_cli.specs.Outcomes.{AreResults, AreSearched, AreStuck, IsTableStopped, IsTableTold, table_refusal};

use crate::refusal::Refusal;
use image_load::Loaded;
use run_outcomes::{Exploration, Limits, Results, Stuck, Tell, explore, tell_results, tell_stuck};
use std::alloc::Global;
use tcc_base::NoMemory;
use tcc_world::Sink;
use text_outcomes::{Broken, Table, write_table};

/// The results among the states that a search has found, and from how many of these no end can be reached.
#[derive(Debug, Drop)]
struct Told {
    results: Results,
    stuck: Stuck,
}

/// What a table that broke off is to the program.
fn of_broken<'a>(broken: Broken) -> Refusal<'a>
    ensures { result ≡ table_refusal broken }
{
    match broken {
        Broken::Memory => Refusal::Memory,
        Broken::Output => Refusal::Output,
    }
}

/// From how many states no end can be reached, where that is known.
fn stuck_states(alloc: Global, explored: &Exploration) -> Result<Stuck, NoMemory>
    ensures { IfOk result (AreStuck explored.now) }
{
    if !explored.done() {
        return Ok(Stuck {
            count: 0,
            first: None,
        });
    }
    tell_stuck(alloc, explored)
}

/// What is told of the states that were found.
fn tell_found(alloc: Global, explored: &Exploration, tell: Tell) -> Result<Told, NoMemory>
    ensures results { IfOk result (λ t. AreResults tell explored.now t.results) }
    ensures stuck { IfOk result (λ t. AreStuck explored.now t.stuck) }
{
    let stuck = stuck_states(alloc, explored)?;
    let results = tell_results(alloc, explored, tell)?;
    Ok(Told { results, stuck })
}

/// Writes the table of the states that were found and of what is told of them: whether the search is done.
fn write_told<'a, O: Sink>(
    alloc: Global,
    loaded: &Loaded,
    limits: Limits,
    tell: Tell,
    explored: &Exploration,
    told: &Told,
    out: &mut O,
) -> Result<bool, Refusal<'a>>
    requires loaded { explored.now.loaded ≡ loaded.now }
    requires searched { AreSearched limits explored.now }
    requires results { AreResults tell explored.now told.now.results }
    requires stuck { AreStuck explored.now told.now.stuck }
    ensures told { IfOk result (IsTableTold (started loaded.now) limits tell
        (record { before = O.page out.old; after = O.page out.new })) }
    ensures stopped { IfErr result (IsTableStopped (started loaded.now) limits tell
        (record { before = O.page out.old; after = O.page out.new })) }
{
    let table = Table {
        loaded,
        explored,
        results: &told.results,
        stuck: told.stuck,
        tell,
    };
    match write_table(alloc, &table, out) {
        Ok(()) => Ok(told.results.done),
        Err(broken) => Err(of_broken(broken)),
    }
}

/// Tells the results among the states that were found, and writes their table: whether the search is done.
fn write_found<'a, O: Sink>(
    alloc: Global,
    loaded: &Loaded,
    limits: Limits,
    tell: Tell,
    explored: &Exploration,
    out: &mut O,
) -> Result<bool, Refusal<'a>>
    requires loaded { explored.now.loaded ≡ loaded.now }
    requires searched { AreSearched limits explored.now }
    ensures told { IfOk result (IsTableTold (started loaded.now) limits tell
        (record { before = O.page out.old; after = O.page out.new })) }
    ensures stopped { IfErr result (IsTableStopped (started loaded.now) limits tell
        (record { before = O.page out.old; after = O.page out.new })) }
{
    match tell_found(alloc, explored, tell) {
        Ok(told) => write_told(alloc, loaded, limits, tell, explored, &told, out),
        Err(NoMemory) => Err(Refusal::Memory),
    }
}

/// Searches the results of what was loaded within these limits, and writes their table: whether all were found.
pub fn write_outcomes<'a, O: Sink>(
    alloc: Global,
    loaded: &Loaded,
    limits: Limits,
    tell: Tell,
    out: &mut O,
) -> Result<bool, Refusal<'a>>
    requires { 1 ≤ limits.states }
    ensures told { IfOk result (IsTableTold (started loaded.now) limits tell
        (record { before = O.page out.old; after = O.page out.new })) }
    ensures stopped { IfErr result (IsTableStopped (started loaded.now) limits tell
        (record { before = O.page out.old; after = O.page out.new })) }
{
    match explore(alloc, loaded, limits) {
        Ok(explored) => write_found(alloc, loaded, limits, tell, &explored, out),
        Err(NoMemory) => Err(Refusal::Memory),
    }
}
