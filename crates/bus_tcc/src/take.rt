// A core takes the packet that is on the bus, which another core's commit left there.
ghost use Rattle.std.specs.Prelude.{◌<◌, ◌≡◌, ◌||◌};
ghost use Rattle.rules_bus.specs.State.{Take};
ghost use Rattle.bus_tcc.specs.Answers.{Answers};
ghost use Rattle.tcc_base.specs.Limits.{run_limit};
ghost use Rattle.core_node.specs.View.{core_of};
ghost use Rattle.bus_tcc.specs.Taking.{reads_any, struck_by, took};

use crate::engine::Engine;
use crate::event::{BusError, BusStep};
use core_node::CoreNode;
use tcc_base::{CoreId, Tagged};

fn either(read: bool, hit: bool) -> bool
    ensures { result ≡ (read || hit) }
{
    read || hit
}

/// Drops the words of these lines that aren't modified. Says whether one of them was marked read.
fn strike_all(core: &mut CoreNode, lines: &[Tagged]) -> bool
    ensures does { core_of core.new ≡ struck_by lines.now (core_of core.old) }
    ensures read { result ≡ reads_any lines.now (core_of core.old).cache }
    ensures config { core.new.config ≡ core.old.config }
    ensures id { core.new.id ≡ core.old.id }
{
    let mut read = false;
    for line in lines {
        let hit = core.strike(line.line, line.mask);
        read = either(read, hit);
    }
    read
}

/// A core takes these lines: where it had read a word of them, its attempt begins anew.
pub(crate) fn take_lines(core: &mut CoreNode, lines: &[Tagged])
    ensures does { core_of core.new ≡ took lines.now (core_of core.old) }
    ensures config { core.new.config ≡ core.old.config }
    ensures id { core.new.id ≡ core.old.id }
{
    if strike_all(core, lines) {
        core.restart();
    }
}

impl Engine {
    /// A core takes the packet.
    pub(crate) fn take(&mut self, core: CoreId) -> Result<BusStep, BusError>
        requires { self.old.events < run_limit }
        ensures { Answers self.old self.new (Take core.0) result }
    {
        let cores = self.config().cores();
        if core.0 >= cores {
            return Err(BusError::Refused);
        }
        if !self.bus.is_left(core) {
            return Err(BusError::Refused);
        }
        self.cores.take(core, self.bus.lines());
        self.bus.leave(core, cores);
        self.events += 1;
        Ok(BusStep::Moved)
    }
}
