// Which evictions of a core are useful, and whether it may execute.
ghost use Rattle.std.specs.Prelude.{◌≡◌, is_some, length, slice_get};
ghost use Rattle.std.specs.Option.{option_map};
ghost use Rattle.image_load.specs.Contents.{started};
ghost use Rattle.rv_code.specs.Machine.{program};
ghost use Rattle.rules_program.specs.Program.{Program};
ghost use Rattle.rules_tcc.specs.CoreExec.{core_exec};
ghost use Rattle.rules_tcc.specs.Useful.{room};
ghost use Rattle.spec_cache.specs.Useful.{line_number, wants_of};
ghost use Rattle.core_node.specs.Useful.{line_awaited, useful_evicts as useful_pairs, wants_in};
ghost use Rattle.core_node.specs.View.{awaited_of, core_of, IsCore};

use crate::state::{Awaited, Core};
use crate::waiting::{may_exec, waits_for_room};
use rv_code::Code;
use spec_cache::Wants;
use tcc_base::LineAddr;

/// The line that is awaited.
fn awaited_line(awaited: Option<Awaited>) -> Option<LineAddr>
    ensures { option_map line_number result ≡ line_awaited (awaited_of awaited) }
{
    match awaited {
        None => None,
        Some(a) => Some(a.line),
    }
}

/// What the core asks its cache for that waits for room there.
fn wants(core: &Core, waits: Option<u16>) -> Wants
    ensures { (p : Program) → waits ≡ room core.now.config p (core_of core.now)
        → wants_of result ≡ wants_in core.now.config p (core_of core.now) }
{
    Wants {
        alone: core.phase.is_alone(),
        awaited: awaited_line(core.awaited),
        room: waits,
    }
}

/// How many evictions are useful.
pub(crate) fn useful_evicts(core: &Core, code: &Code) -> usize
    requires whole { IsCore core.now }
    requires same { code.now.settings ≡ core.now.config }
    ensures { result ≡ length (useful_pairs core.now.config (program (started code.now)) (core_of core.now)) }
{
    core.cache
        .useful_count(wants(core, waits_for_room(core, code)))
}

/// Whether the core may execute, and how many evictions are useful: where it waits for room is looked for once.
#[inline(always)]
pub(crate) fn uses(core: &Core, code: &Code) -> (bool, usize)
    requires whole { IsCore core.now }
    requires same { code.now.settings ≡ core.now.config }
    ensures exec { result.0 ≡ is_some (core_exec core.now.config (program (started code.now)) core.now.id.0 (core_of core.now)) }
    ensures evicts { result.1 ≡ length (useful_pairs core.now.config (program (started code.now)) (core_of core.now)) }
{
    let waits = waits_for_room(core, code);
    (
        may_exec(core, waits),
        core.cache.useful_count(wants(core, waits)),
    )
}

/// The set and way of the `k`-th useful eviction, from 0.
pub(crate) fn useful_evict(core: &Core, code: &Code, k: usize) -> Option<(u16, u8)>
    requires whole { IsCore core.now }
    requires same { code.now.settings ≡ core.now.config }
    ensures { result ≡ slice_get (useful_pairs core.now.config (program (started code.now)) (core_of core.now)) k }
{
    core.cache
        .useful_way(wants(core, waits_for_room(core, code)), k)
}
