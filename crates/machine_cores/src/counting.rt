// The cores at the start, and the numbers of their useful events.
ghost use Rattle.std.specs.Prelude.{◌≡◌, ◌<◌, IfOk, length, slice_set};
ghost use Rattle.image_load.specs.Contents.{started};
ghost use Rattle.rv_code.specs.Machine.{program};
ghost use Rattle.tcc_base.specs.Settings.{IsAllowed};
ghost use Rattle.core_node.specs.View.{core_of};
ghost use Rattle.machine_cores.specs.Bank.{cores_of, first_core};
ghost use Rattle.machine_cores.specs.BankInside.{AreCores};
ghost use Rattle.machine_cores.specs.Uses.{AreCounted, exec_count as execs_of, evict_count as evicts_of};

use base_sums::SumTree;
use core_node::CoreNode;
use rv_code::Code;
use std::alloc::Global;
use tcc_base::{CoreId, List, NoMemory};

/// Counts the useful events of the core of this number anew. After a call that failed the counts are as before, since the state of
/// the rules that the core stands for is.
pub(crate) fn recount(
    core: &CoreNode,
    number: usize,
    code: &Code,
    execs: &mut SumTree,
    evicts: &mut SumTree,
)
    requires allowed { IsAllowed core.now.config }
    requires same { code.now.settings ≡ core.now.config }
    requires exec_place { number < length execs.old }
    requires evict_place { number < length evicts.old }
    ensures execs { execs.new ≡ slice_set execs.old number
        (execs_of core.now.config (program (started code.now)) core.now.id.0 (core_of core.now)) }
    ensures evicts { evicts.new ≡ slice_set evicts.old number (evicts_of core.now.config (program (started code.now)) (core_of core.now)) }
{
    let (may_execute, evictions) = core.uses(code);
    execs.set(number, if may_execute { 1 } else { 0 });
    // At most one for each of at most 1024 times 16 ways.
    evicts.set(number, evictions as u32);
}

/// All cores, at their entries.
pub fn start_cores(alloc: Global, code: &Code) -> Result<List<CoreNode>, NoMemory>
    ensures cores { IfOk result (λ cs. AreCores code.now.settings cs) }
    ensures start { IfOk result (λ cs. cores_of (record { code = code.now; cores = cs }) ≡ first_core (started code.now)) }
{
    let config = *code.config();
    let mut cores = List::new(alloc);
    for c in 0..config.cores() {
        let id = CoreId(c);
        cores.push(CoreNode::start(alloc, &config, id, code.entry(id))?)?;
    }
    Ok(cores)
}

/// Counts the useful events of each core.
pub(crate) fn count_uses(
    cores: &List<CoreNode>,
    code: &Code,
    execs: &mut SumTree,
    evicts: &mut SumTree,
)
    requires allowed { IsAllowed code.now.settings }
    requires cores { AreCores code.now.settings cores.now }
    requires exec_places { length execs.old ≡ code.now.settings.cores }
    requires evict_places { length evicts.old ≡ code.now.settings.cores }
    ensures { AreCounted code.now.settings (program (started code.now)) (cores_of (record { code = code.now; cores = cores.now })) execs.new
        evicts.new }
{
    for (c, core) in cores.items.iter().enumerate() {
        recount(core, c, code, execs, evicts);
    }
}
