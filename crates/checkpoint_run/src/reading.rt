// Reading a run from its text.
ghost use Rattle.std.specs.Prelude.{◌≡◌, ◌++◌, [], IfOk, IfSome};
ghost use Rattle.row_text.specs.Rows.{row_text};
ghost use Rattle.checkpoint_text.specs.Laws.{IsLaidOut, machine_text};
ghost use Rattle.count_rows.specs.Rows.{counts_text};
ghost use Rattle.checkpoint_run.specs.Runs.{generator_row, run_text, version_row};

use checkpoint_text::{Broken, line_at, read_machine};
use count_rows::{Fault, read_counts};
use image_load::Loaded;
use net_core::System;
use row_text::read_row;
use std::alloc::Global;
use watch_count::Counts;
use watch_run::Run;

/// Reads the row of the version of such texts: what follows it. `None` where it is another version, or no such row stands in front.
fn read_version(bytes: &[u8]) -> Option<&[u8]>
    ensures { IfSome result (λ rest. bytes.now ≡ row_text version_row ++ rest.now) }
{
    let mut row = [0; 1];
    let rest = read_row(bytes, b"tcc-run", &mut row)?;
    if row[0] == 1 { Some(rest) } else { None }
}

/// Reads the row of the generator: the seed, how many words were drawn, and what follows it.
fn read_generator(bytes: &[u8]) -> Option<(u64, u64, &[u8])>
    ensures { IfSome result (λ x. bytes.now ≡ row_text (generator_row x.0 x.1) ++ x.2.now) }
{
    let mut row = [0; 2];
    let rest = read_row(bytes, b"generator", &mut row)?;
    Some((row[0], row[1], rest))
}

/// Reads the rows that a run has of its own: the seed, how many words were drawn, and what follows them.
fn read_head(bytes: &[u8]) -> Result<(u64, u64, &[u8]), Broken>
    ensures { IfOk result (λ x. bytes.now ≡ row_text version_row ++ (row_text (generator_row x.0 x.1) ++ x.2.now)) }
{
    let Some(rest) = read_version(bytes) else {
        return Err(Broken::Line(1));
    };
    match read_generator(rest) {
        Some(head) => Ok(head),
        None => Err(Broken::Line(2)),
    }
}

/// Why these bytes are no run's text, whose counts have this fault.
fn why_no_counts(bytes: &[u8], fault: Fault) -> Broken {
    match fault {
        Fault::Row(left) => Broken::Line(line_at(bytes, left)),
        Fault::Unsound => Broken::Unsound,
        Fault::Other => Broken::Other,
        Fault::NoMemory => Broken::NoMemory,
    }
}

/// Reads the counts of a run of what was loaded, which stand in front of `rest` in a text: these, and what follows them.
fn counts_in_front<'a>(
    alloc: Global,
    text: &[u8],
    rest: &'a [u8],
    loaded: &Loaded,
) -> Result<(Counts, &'a [u8]), Broken>
    ensures { IfOk result (λ x. rest.now ≡ counts_text x.0 ++ x.1.now) }
{
    match read_counts(alloc, rest, loaded.config().cores()) {
        Ok((counts, after)) => Ok((counts, after)),
        Err(fault) => Err(why_no_counts(text, fault)),
    }
}

/// The same fault of a text that ends in the machine's.
fn in_whole(text: &[u8], machine: &[u8], broken: Broken) -> Broken {
    match broken {
        Broken::Line(line) => Broken::Line((line_at(text, machine.len()) - 1).saturating_add(line)),
        _ => broken,
    }
}

/// The machine whose text ends this text.
fn machine_at_end(
    alloc: Global,
    text: &[u8],
    machine: &[u8],
    loaded: &Loaded,
) -> Result<System, Broken>
    ensures text { IfOk result (λ m. machine_text m ≡ machine.now) }
    ensures code { IfOk result (λ m. m.cores.code ≡ loaded.now) }
    ensures settled { IfOk result (λ m. m.unsent ≡ []) }
    ensures laid_out { IfOk result (λ m. IsLaidOut m) }
{
    match read_machine(alloc, machine, loaded) {
        Ok(system) => Ok(system),
        Err(broken) => Err(in_whole(text, machine, broken)),
    }
}

/// The run with this text, of the program that was loaded: `Run::go` takes it further as if it had never been written down.
///
/// `Line` of the first row of the text, from 1, that isn't in its place or tells no value, and of the first row where the text is of
/// another version; `Settings` where its machine has other settings; `Unsound` where the rules might not go on from the machine, or
/// numbers are above what bounds them in the counts; and `Other` where a run of what the text tells has another text. It takes the time
/// and the memory of `read_machine` and `read_counts`.
pub fn read_run(alloc: Global, bytes: &[u8], loaded: &Loaded) -> Result<Run, Broken>
    ensures text { IfOk result (λ r. run_text r ≡ bytes.now) }
    ensures code { IfOk result (λ r. r.machine.cores.code ≡ loaded.now) }
    ensures settled { IfOk result (λ r. r.machine.unsent ≡ []) }
    ensures laid_out { IfOk result (λ r. IsLaidOut r.machine) }
{
    let (seed, drawn, rest) = read_head(bytes)?;
    match counts_in_front(alloc, bytes, rest, loaded) {
        Err(broken) => Err(broken),
        Ok((counts, machine)) => match machine_at_end(alloc, bytes, machine, loaded) {
            Err(broken) => Err(broken),
            Ok(system) => Ok(Run::restored(system, counts, seed, drawn)),
        },
    }
}
