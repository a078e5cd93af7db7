// The tables of commits, as text.
ghost use Rattle.std.specs.Prelude.{◌≡◌, ◌∷◌, ◌++◌, [], ℕ, OnOk, codes};
ghost use Rattle.row_text.specs.Rows.{row_text, rows_text};
ghost use Rattle.tcc_base.specs.declared.access.Commit.{Commit as CommitData};
ghost use Rattle.checkpoint_text.specs.Commits.{commit_numbers, commit_tables};
ghost use Rattle.checkpoint_text.specs.Numbers.{byte_numbers, load_numbers, stored_numbers};
ghost use Rattle.checkpoint_text.specs.Tables.{all, each, tables_rows};
ghost use Rattle.checkpoint_text.specs.Written.{numbered_text};

use crate::entries::{push_bytes, push_loads, push_stores};
use row_text::push_row;
use tcc_base::{Commit, List, NoMemory};

fn push_commit(text: &mut List<u8>, k: u64, commit: &Commit) -> Result<(), NoMemory>
    ensures { OnOk result (text.new ≡ text.old ++ row_text (record { word = codes "commit"; numbers = k ∷ commit_numbers commit.now })) }
{
    push_row(
        text,
        b"commit",
        &[k, commit.tid.0, commit.core.0 as u64, commit.n as u64],
    )
}

fn push_heads(text: &mut List<u8>, commits: &[Commit]) -> Result<(), NoMemory>
    ensures { OnOk result (text.new ≡ text.old ++ numbered_text (codes "commit") (each commit_numbers) 0 commits.now) }
{
    for (k, commit) in commits.iter().enumerate() {
        push_commit(text, k as u64, commit)?;
    }
    Ok(())
}

fn push_commit_loads(text: &mut List<u8>, commits: &[Commit]) -> Result<(), NoMemory>
    ensures { OnOk result (text.new
        ≡ text.old ++ numbered_text (codes "commit-load") (all (λ (c : CommitData). c.loads) load_numbers) 0 commits.now) }
{
    for (k, commit) in commits.iter().enumerate() {
        push_loads(text, b"commit-load", k as u64, &commit.loads.items)?;
    }
    Ok(())
}

fn push_commit_stores(text: &mut List<u8>, commits: &[Commit]) -> Result<(), NoMemory>
    ensures { OnOk result (text.new
        ≡ text.old ++ numbered_text (codes "commit-store") (all (λ (c : CommitData). c.stores) stored_numbers) 0 commits.now) }
{
    for (k, commit) in commits.iter().enumerate() {
        push_stores(text, b"commit-store", k as u64, &commit.stores.items)?;
    }
    Ok(())
}

fn push_commit_bytes(text: &mut List<u8>, commits: &[Commit]) -> Result<(), NoMemory>
    ensures { OnOk result (text.new
        ≡ text.old ++ numbered_text (codes "commit-byte") (all (λ (c : CommitData). c.console) byte_numbers) 0 commits.now) }
{
    for (k, commit) in commits.iter().enumerate() {
        push_bytes(text, b"commit-byte", k as u64, &commit.console.items)?;
    }
    Ok(())
}

/// Appends the tables of commits. It takes time for each byte that it writes. After want of memory the text may have more behind its old
/// bytes.
pub fn push_commits(text: &mut List<u8>, commits: &[Commit]) -> Result<(), NoMemory>
    ensures { OnOk result (text.new ≡ text.old ++ rows_text (tables_rows (commit_tables commits.now))) }
{
    push_heads(text, commits)?;
    push_commit_loads(text, commits)?;
    push_commit_stores(text, commits)?;
    push_commit_bytes(text, commits)?;
    Ok(())
}
