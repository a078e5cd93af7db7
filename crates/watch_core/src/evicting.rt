// A way that is emptied.
ghost use Rattle.std.specs.Prelude.{◌≡◌, ◌<◌, map};
ghost use Rattle.std.specs.Option.{option_to_list};
ghost use Rattle.core_node.specs.View.{core_of};
ghost use Rattle.watch.specs.Instructions.{evicted as emptied};
ghost use Rattle.watch.specs.Plain.{fact_of};

use core_node::CoreNode;
use tcc_base::CoreId;
use watch::Fact;

/// What it would take from the cache to empty a way: the line that it holds, with its dirty and modified words. It takes constant time.
#[tactic(auto, unfolding(watch::specs::Instructions::evicted))]
pub fn evicted(core: &CoreNode, id: CoreId, set: u16, way: u8) -> Option<Fact>
    requires set_exists { set < core.now.config.sets }
    requires way_exists { way < core.now.config.ways }
    ensures { map fact_of (option_to_list result) ≡ emptied id.0 set way (core_of core.now) }
{
    let frame = core.frame(set, way)?;
    Some(Fact::Evicted {
        core: id,
        line: frame.line,
        dirty: frame.dirty,
        modified: frame.modified,
    })
}
