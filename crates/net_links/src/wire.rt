// The queue of one link, which its two ends share, and how a link is made.
ghost use Rattle.std.specs.Prelude.{◌≡◌, [], IfOk};
ghost use Rattle.std.specs.Arc.{arc_value};
ghost use Rattle.crossbeam_queue.specs.SegTies.{IsSegPassOf};
ghost use Rattle.net_links.specs.Linked.{outlet_hand, inlet_hand};

use crate::inlet::Inlet;
use crate::outlet::Outlet;
use crate::rule::{Ends, Hand, InOrder, Placed, Roles};
use crossbeam_queue::{RuledSegQueue, SegPass};
use rules_apart::Mail;
use std::alloc::Global;
use std::marker::Brand;
use std::sync::Arc;
use tcc_base::{Config, NoMemory, NodeId};

// The queue, which drops what it still holds once both ends are gone.
pub struct Wire {
    pub queue: RuledSegQueue<Mail, Hand, InOrder>,
}

impl Drop for Wire {
    fn drop(self) {
        let Self { queue } = self;
        queue.destroy();
    }
}

pub type Pass = SegPass<Mail, Hand>;

// A link between these ends.
fn between<P: Placed>(alloc: Global, ends: Ends) -> Result<(Outlet, Inlet), NoMemory>
    requires { ends ≡ P.ends }
    ensures one { IfOk result (λ p. p.0.link ≡ p.1.link) }
    ensures outlet { IfOk result (λ p. (p.0.ends ≡ ends) × (p.0.sent ≡ [])) }
    ensures inlet { IfOk result (λ p. (p.1.ends ≡ ends) × (p.1.got ≡ [])) }
{
    let Ok((queue, mut writer)) = RuledSegQueue::<Mail, Hand, InOrder>::with_rule(alloc) else {
        return Err(NoMemory);
    };
    let reader = queue.another::<Roles<P>>(&mut writer);
    let Ok(wire) = Arc::new(alloc, Wire { queue }) else {
        return Err(NoMemory);
    };
    let Ok(theirs) = Arc::try_clone(&wire) else {
        return Err(NoMemory);
    };
    Ok((Outlet::new(wire, writer), Inlet::new(theirs, reader)))
}

/// A link from one node to another, in a machine with these settings, on which nothing was sent. Takes memory for the queue and its first
/// block; when it runs out, nothing is left of it.
pub fn link(
    alloc: Global,
    config: &Config,
    src: NodeId,
    dst: NodeId,
) -> Result<(Outlet, Inlet), NoMemory>
    ensures one { IfOk result (λ p. p.0.link ≡ p.1.link) }
    ensures outlet { IfOk result (λ p. (p.0.ends ≡ record { settings = config.now; src = src; dst = dst }) × (p.0.sent ≡ [])) }
    ensures inlet { IfOk result (λ p. (p.1.ends ≡ record { settings = config.now; src = src; dst = dst }) × (p.1.got ≡ [])) }
{
    let settings = *config;
    between::<Brand>(alloc, Ends { settings, src, dst })
}
