// The cores of a machine, with what each can do next.
ghost use Rattle.std.specs.Prelude.{◌≡◌, ◌<◌, ℕ, IfOk, Some, length, slice_get};
ghost use Rattle.image_load.specs.Contents.{started};
ghost use Rattle.core_node.specs.View.{core_of};
ghost use Rattle.core_node.specs.declared.state.Core.{Core as CoreData};
ghost use Rattle.machine_cores.specs.Bank.{cores_of, first_core};

use crate::counting::{count_uses, start_cores};
use base_sums::SumTree;
use core_node::CoreNode;
use rv_code::Code;
use std::alloc::Global;
use std::marker::Model;
use tcc_base::{CoreId, List, NoMemory};

/// All cores of a machine with the program that they run, and for each core whether it can execute and how many of its evictions are
/// useful. In a clause `cores_of` makes of it the states of the rules by core.
#[derive(Debug, Drop)]
pub struct CoreBank {
    pub(crate) code: Code,
    pub(crate) cores: List<CoreNode>,
    /// By core: 1 where it can execute, else 0.
    pub(crate) execs: SumTree,
    /// By core: how many of its evictions are useful.
    pub(crate) evicts: SumTree,
}

impl Model for CoreBank {
    ghost use Rattle.machine_cores.specs.Bank.{CoresData};

    ghost Value = { CoresData };

    ghost use Rattle.machine_cores.specs.BankInside.{bank_of, IsBank};

    ghost view = { bank_of };

    ghost invariant = { IsBank };
}

impl CoreBank {
    /// All cores at their entries with empty frames. All memory of their caches is taken here.
    pub fn start(alloc: Global, code: Code) -> Result<CoreBank, NoMemory>
        ensures code { IfOk result (λ b. b.code ≡ code) }
        ensures start { IfOk result (λ b. cores_of b ≡ first_core (started code)) }
    {
        let cores = start_cores(alloc, &code)?;
        let mut execs = SumTree::new(alloc, cores.items.len())?;
        let mut evicts = SumTree::new(alloc, cores.items.len())?;
        count_uses(&cores, &code, &mut execs, &mut evicts);
        Ok(CoreBank {
            code,
            cores,
            execs,
            evicts,
        })
    }

    /// The core of this number, to be read. It takes constant time.
    pub fn core(&self, core: CoreId) -> &CoreNode
        requires { core.0 < self.now.code.settings.cores }
        ensures config { result.now.config ≡ self.now.code.settings }
        ensures id { result.now.id ≡ core }
        ensures state { core_of result.now ≡ cores_of self.now core.0 }
        ensures data { slice_get self.now.cores core.0 ≡ Some result.now }
    {
        &self.cores.items[core.0 as usize]
    }

    /// All cores by number, to be read. It takes constant time.
    pub fn all_cores(&self) -> &[CoreNode]
        ensures data { result.now ≡ self.now.cores }
        ensures count { length self.now.cores ≡ self.now.code.settings.cores }
        ensures config { (c : ℕ) (x : CoreData) → slice_get self.now.cores c ≡ Some x → x.config ≡ self.now.code.settings }
    {
        self.cores.items.as_slice()
    }
}
