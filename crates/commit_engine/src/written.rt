// The lines that a core has written: gathered from the marked frames and the spilled words, and put in order once.
ghost use Rattle.std.specs.Prelude.{◌≡◌, ◌<◌, ◌↔◌, ◌++◌, ℕ, true, map, Contains, IfOk, OnOk};
ghost use Rattle.std.specs.List.{AllPairs};
ghost use Rattle.rules_maps.specs.Shape.{lines as ram_lines};
ghost use Rattle.rules_tcc.specs.Commit.{is_written};
ghost use Rattle.spec_cache.specs.Held.{maps};
ghost use Rattle.overflow_buf.specs.Kept.{spilled as words_of};
ghost use Rattle.commit_engine.specs.Solo.{line_in};

use overflow_buf::OverflowBuf;
use spec_cache::SpecCache;
use tcc_base::{Config, DirId, LineAddr, Mask, NoMemory};

/// Adds the lines of a list of marks.
fn add_lines(lines: &mut Vec<u32>, marks: &[(LineAddr, Mask)]) -> Result<(), NoMemory>
    ensures { OnOk result (lines.new.items ≡ lines.old.items ++ map line_in marks.now) }
{
    for (line, _) in marks {
        let Ok(()) = lines.push(line.0) else {
            return Err(NoMemory);
        };
    }
    Ok(())
}

/// The lines that have modified or spilled words, in no order.
fn gather(cfg: &Config, cache: &SpecCache, spilled: &OverflowBuf) -> Result<Vec<u32>, NoMemory>
    requires { cache.now.config ≡ cfg.now }
    ensures each { IfOk result (λ v. (l : ℕ) → l < ram_lines cfg.now → is_written (maps cache.now) (words_of spilled.now) l ≡ true
        → Contains v.items l) }
    ensures only { IfOk result (λ v. (l : ℕ) → Contains v.items l → is_written (maps cache.now) (words_of spilled.now) l ≡ true) }
{
    let mut lines = spilled.lines()?;
    for d in 0..cfg.dirs() {
        let marks = cache.marks_by_home(DirId(d))?;
        add_lines(&mut lines, &marks)?;
    }
    Ok(lines)
}

/// Puts line numbers in rising order, each once.
fn put_in_order(lines: &mut Vec<u32>)
    ensures rising { AllPairs (λ a b. a < b) lines.new.items }
    ensures same { (l : ℕ) → Contains lines.new.items l ↔ Contains lines.old.items l }
{
    lines.sort_unstable();
    lines.dedup();
}

/// The lines that have modified or spilled words, rising. Takes time in the marked frames for each directory, and in the spilled lines,
/// which it sorts.
pub(crate) fn written_lines(
    cfg: &Config,
    cache: &SpecCache,
    spilled: &OverflowBuf,
) -> Result<Vec<u32>, NoMemory>
    requires { cache.now.config ≡ cfg.now }
    ensures rising { IfOk result (λ v. AllPairs (λ a b. a < b) v.items) }
    ensures each { IfOk result (λ v. (l : ℕ) → l < ram_lines cfg.now → is_written (maps cache.now) (words_of spilled.now) l ≡ true
        → Contains v.items l) }
    ensures only { IfOk result (λ v. (l : ℕ) → Contains v.items l → is_written (maps cache.now) (words_of spilled.now) l ≡ true) }
{
    let mut lines = gather(cfg, cache, spilled)?;
    put_in_order(&mut lines);
    Ok(lines)
}
