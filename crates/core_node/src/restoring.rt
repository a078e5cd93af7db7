// A core that is made from its plain data.
ghost use Rattle.std.specs.Prelude.{◌≡◌, ◌↔◌, IfSome, IsSome, IsTrue};
ghost use Rattle.spec_cache.specs.Held.{maps};
ghost use Rattle.core_node.specs.View.{AwaitsFrame, IsCore};

use crate::node::CoreNode;
use crate::state::Core;

/// Whether the line that is awaited has a frame, where one is.
fn awaits_frame(core: &Core) -> bool
    ensures { IsTrue result ↔ AwaitsFrame (maps core.now.cache) core.now.awaited }
{
    match core.awaited {
        None => true,
        Some(awaited) => core.cache.has_frame(awaited.line),
    }
}

/// Whether the cache is for the core's settings, and the line that is awaited has a frame.
fn is_core(core: &Core) -> bool
    ensures { IsTrue result ↔ IsCore core.now }
{
    core.cache.config() == core.config && awaits_frame(core)
}

impl CoreNode {
    /// The core that holds just this. None exactly where there is none: the cache is for other settings, or the core awaits a line
    /// that has no frame. It takes a step a way of a set.
    pub fn restored(core: Core) -> Option<CoreNode>
        ensures some { IfSome result (λ n. n ≡ core) }
        ensures whole { IsSome result ↔ IsCore core }
    {
        if is_core(&core) {
            Some(CoreNode { core })
        } else {
            None
        }
    }
}
