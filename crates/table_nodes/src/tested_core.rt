// A core with the program that it runs. It is called only as its contracts allow.
ghost use Rattle.std.specs.Prelude.{◌≡◌, ◌<◌, true, IfOk};
ghost use Rattle.core_node.specs.View.{IsKnown};

use crate::answers::Answer;
use core_node::{CoreError, CoreNode, Executed};
use rv_code::Code;
use std::alloc::Global;
use tcc_base::{CoreId, NoMemory, NodeId};
use tcc_msg::{Msg, Outgoing};

#[derive(Drop)]
pub struct TestedCore {
    pub code: Code,
    pub core: CoreNode,
    ghost same: { code.settings ≡ core.config },
}

/// What the answer to a message or an emptied way is called.
fn told(done: Result<(), CoreError>, well: Answer) -> Answer {
    match done {
        Ok(()) => well,
        Err(CoreError::Blocked) => Answer::Blocked,
        Err(CoreError::Memory) => Answer::Memory,
    }
}

/// What the answer to an execution is called.
fn executed(done: Result<Executed, CoreError>) -> Answer {
    match done {
        Ok(Executed::Stepped) => Answer::Stepped,
        Ok(Executed::Asked) => Answer::Asked,
        Ok(Executed::Committed(commit)) => Answer::Committed(commit),
        Err(CoreError::Blocked) => Answer::Blocked,
        Err(CoreError::Memory) => Answer::Memory,
    }
}

/// The answer, where it agrees with what was said before.
fn agreed(allowed: bool, answer: Answer) -> Answer {
    if answer.agrees(allowed) {
        answer
    } else {
        Answer::Contradicts
    }
}

impl TestedCore {
    /// Appends a core as it starts, which keeps the program.
    pub fn start(
        cores: &mut Vec<TestedCore>,
        alloc: Global,
        code: Code,
        id: CoreId,
    ) -> Result<(), NoMemory> {
        let core = CoreNode::start(alloc, code.config(), id, code.entry(id))?;
        cores.push(TestedCore { code, core }).map_err(|_| NoMemory)
    }

    pub fn exec(&mut self, out: &mut Outgoing) -> Answer {
        let allowed = self.core.can_exec(&self.code);
        agreed(allowed, executed(self.core.exec(&self.code, out)))
    }

    pub fn evict(&mut self, set: u16, way: u8, out: &mut Outgoing) -> Answer {
        let config = self.code.config();
        if set >= config.sets() || way >= config.ways() {
            return Answer::Nothing;
        }
        let allowed = self.core.can_evict(set, way);
        agreed(
            allowed,
            told(self.core.evict(set, way, out), Answer::Emptied),
        )
    }

    /// Whether there is such a sender.
    fn is_known(&self, src: NodeId) -> bool
        ensures { result ≡ true → IsKnown self.now.core.config src }
    {
        match src {
            NodeId::Core(_) => true,
            NodeId::Dir(dir) => dir.0 < self.code.config().dirs(),
            NodeId::Vendor => true,
        }
    }

    pub fn deliver(&mut self, src: NodeId, msg: &Msg, out: &mut Outgoing) -> Answer {
        if !self.is_known(src) {
            return Answer::Nothing;
        }
        told(self.core.deliver(src, msg, out), Answer::Taken)
    }
}
