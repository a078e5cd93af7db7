// Writing a run down.
ghost use Rattle.std.specs.Prelude.{◌≡◌, ◌++◌, [], OnOk};
ghost use Rattle.row_text.specs.Rows.{rows_text};
ghost use Rattle.checkpoint_text.specs.Laws.{IsLaidOut};
ghost use Rattle.checkpoint_run.specs.Runs.{head_rows, run_text};

use checkpoint_text::push_machine;
use count_rows::push_counts;
use row_text::push_row;
use tcc_base::{List, NoMemory};
use watch_run::Run;

/// Appends the rows of the version, of the seed, and of the words that were drawn.
fn push_head(text: &mut List<u8>, run: &Run) -> Result<(), NoMemory>
    ensures { OnOk result (text.new ≡ text.old ++ rows_text (head_rows run.now)) }
{
    push_row(text, b"tcc-run", &[1])?;
    push_row(text, b"generator", &[run.seed(), run.drawn()])?;
    Ok(())
}

/// Appends the text of a run: its seed and the words that were drawn, its counts, and its machine.
///
/// It takes time for each line of memory and each byte that it writes, and memory for the text. After want of memory the text may have
/// more behind its old bytes. Who wants a text that tells of the events alone calls `Run::forget` first. A run all of whose messages stand
/// on their links is the only one with this text.
pub fn push_run(text: &mut List<u8>, run: &Run) -> Result<(), NoMemory>
    ensures text { OnOk result (text.new ≡ text.old ++ run_text run.now) }
    ensures laid_out { OnOk result (run.now.machine.unsent ≡ [] → IsLaidOut run.now.machine) }
{
    push_head(text, run)?;
    push_counts(text, run.counts())?;
    push_machine(text, run.system())?;
    Ok(())
}
