// The list of commits: each stands behind those of smaller TIDs, wherever it comes.
ghost use Rattle.std.specs.Prelude.{◌≡◌, ◌==◌, ◌<◌, ◌≤◌, ◌↔◌, [], ◌∷◌, ◌++◌, false, length, IfOk, IsTrue, OnOk, OnErr};
ghost use Rattle.std.specs.List.{insert};
ghost use Rattle.tcc_base.specs.declared.access.Commit.{Commit};
ghost use Rattle.rules_program.specs.Cores.{printed};
ghost use Rattle.rules_tcc.specs.Step.{insert_commit};
ghost use Rattle.machine_commits.specs.Rising.{Rising, HasNone};
ghost use Rattle.machine_commits.specs.Forgetting.{Forgets};

use std::alloc::Global;
use std::marker::Model;
use tcc_base::{Commit, CoreId, List, NoMemory, Tid};

/// The commits of a machine, by rising TID. In a clause it is the list of the commits, with how many more there is room for.
#[derive(Debug, Drop)]
pub struct CommitList {
    commits: Vec<Commit>,
}

impl Model for CommitList {
    ghost use Rattle.std.specs.Prelude.{◌-◌, length, vec_capacity};
    ghost use Rattle.machine_commits.specs.Rising.{Commits, Rising};

    ghost Value = { Commits };

    ghost view = { λ c. record { list = c.commits.items; room = vec_capacity c.commits - length c.commits.items } };

    ghost invariant = { λ c. Rising c.commits.items };
}

impl CommitList {
    /// No commits. No memory is taken yet.
    pub fn new(alloc: Global) -> Self
        ensures { result.list ≡ [] }
    {
        CommitList {
            commits: Vec::new(alloc),
        }
    }

    /// The number of commits. It takes constant time.
    pub fn len(&self) -> usize
        ensures { result ≡ length self.now.list }
    {
        self.commits.len()
    }

    /// Whether nothing is committed yet. It takes constant time.
    pub fn is_empty(&self) -> bool
        ensures { result ≡ (length self.now.list == 0) }
    {
        self.commits.is_empty()
    }

    /// The commits, by rising TID. It takes constant time.
    pub fn as_slice(&self) -> &[Commit]
        ensures commits { result.now ≡ self.now.list }
        ensures rising { Rising self.now.list }
    {
        &self.commits
    }

    /// Makes room for one more commit, so that `insert` can take it after the machine has changed. The commits stay as they are, also
    /// after want of memory. It takes constant time but for the growth of the list.
    pub fn reserve(&mut self) -> Result<(), NoMemory>
        ensures room { OnOk result (0 < self.new.room) }
        ensures full { OnErr result (self.old.room ≡ 0) }
        ensures unchanged { self.new.list ≡ self.old.list }
    {
        self.commits.reserve(1).map_err(|_| NoMemory)
    }

    /// Notes one more commit, behind those of smaller TIDs, where there is room for it. It takes no memory, and its time goes with
    /// the number of commits of larger TIDs, which came too early: mostly there is none.
    pub fn insert(&mut self, commit: Commit)
        requires room { 0 < self.old.room }
        requires new { HasNone commit.tid.0 self.old.list }
        ensures { self.new.list ≡ insert_commit commit self.old.list }
    {
        let at = place_for(&self.commits, commit.tid);
        match self.commits.insert(at, commit) {
            Ok(()) => {}
            Err(_) => unreachable!(),
        }
    }

    /// Notes one more commit, where its TID is above all others. False exactly where it isn't; then nothing is changed, as after want of
    /// memory. It takes constant time but for the growth of the list.
    pub fn push(&mut self, commit: Commit) -> Result<bool, NoMemory>
        ensures above { IfOk result (λ b. IsTrue b ↔ Rising (self.old.list ++ commit ∷ [])) }
        ensures pushed { IfOk result (λ b. IsTrue b → self.new.list ≡ self.old.list ++ commit ∷ []) }
        ensures kept { IfOk result (λ b. b ≡ false → self.new.list ≡ self.old.list) }
        ensures unchanged { OnErr result (self.new.list ≡ self.old.list) }
    {
        if !is_above(&self.commits, commit.tid) {
            return Ok(false);
        }
        match self.commits.push(commit) {
            Ok(()) => Ok(true),
            Err(_) => Err(NoMemory),
        }
    }

    /// Forgets the first commits: all those of TIDs below this one. It takes no memory, and its time goes with the number of commits.
    pub fn forget_before(&mut self, tid: Tid)
        ensures forgets { Forgets tid.0 self.old.list self.new.list }
        ensures rising { Rising self.old.list }
    {
        self.commits.retain(|commit| tid.0 <= commit.tid.0);
    }

    /// The bytes that the commits of one core printed, in the order of the commits. Its time goes with the number of all commits
    /// and of these bytes.
    pub fn console(&self, alloc: Global, core: CoreId) -> Result<List<u8>, NoMemory>
        ensures { IfOk result (λ bytes. bytes ≡ printed core.0 self.now.list) }
    {
        let mut bytes = List::new(alloc);
        for commit in &self.commits {
            if commit.core == core {
                append(&mut bytes, &commit.console)?;
            }
        }
        Ok(bytes)
    }
}

// Whether a TID is above those of all commits, so that one that has it may stand behind them.
fn is_above(commits: &[Commit], tid: Tid) -> bool
    requires { Rising commits.now }
    ensures { (c : Commit) → c.tid.0 ≡ tid.0 → IsTrue result ↔ Rising (commits.now ++ c ∷ []) }
{
    match commits.last() {
        Some(last) => last.tid.0 < tid.0,
        None => true,
    }
}

// How many commits stand before one of that TID. It is looked for from the end.
fn place_for(commits: &[Commit], tid: Tid) -> usize
    requires { Rising commits.now }
    ensures within { result ≤ length commits.now }
    ensures place { (c : Commit) → c.tid.0 ≡ tid.0 → insert_commit c commits.now ≡ insert commits.now result c }
{
    let mut at = commits.len();
    while at > 0 && tid.0 < commits[at - 1].tid.0 {
        at -= 1;
    }
    at
}

// Appends the bytes.
fn append(bytes: &mut List<u8>, more: &List<u8>) -> Result<(), NoMemory>
    ensures { OnOk result (bytes.new ≡ bytes.old ++ more.now) }
{
    match bytes.items.extend_from_slice(&more.items) {
        Ok(()) => Ok(()),
        Err(_) => Err(NoMemory),
    }
}
