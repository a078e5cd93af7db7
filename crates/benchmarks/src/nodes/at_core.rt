// Rounds of work at a core, whose partners answer at once.
ghost use Rattle.std.specs.Prelude.{◌≡◌, ◌<◌, ◌≤◌};

use super::programs::{program, violated_after};
use super::starts::loaded;
use super::work::Work;
use core_node::{CoreError, CoreNode, Executed};
use rv_code::Code;
use std::alloc::Global;
use std::mem::swap;
use tcc_base::{Config, CoreId, DirId, LineAddr, Mask, NoMemory, NodeId, Tid};
use tcc_msg::{Msg, Outgoing};

/// A core with its program, what it sent last, and room for what it sends next.
#[derive(Debug, Drop)]
struct Runner {
    code: Code,
    core: CoreNode,
    out: Outgoing,
    answered: Outgoing,
    /// The TID that was given last.
    tid: u64,
    /// The checksum.
    sum: u64,
    ghost same: { code.settings ≡ core.config },
}

/// What comes back for a message, where something does.
fn reply(msg: &Msg, tid: u64) -> Option<Msg> {
    match *msg {
        Msg::TidReq => Some(Msg::TidGrant { tid: Tid(tid) }),
        Msg::Probe { tid } => Some(Msg::ProbeReply { tid, serving: tid }),
        Msg::LoadReq { line, .. } => Some(Msg::Fill {
            line,
            words: [line.0; 8],
        }),
        _ => None,
    }
}

impl Runner {
    fn start(alloc: Global, config: &Config, work: Work, lines: u32) -> Result<Runner, NoMemory>
        requires { lines ≤ 500 }
    {
        let bytes = program(alloc, work, lines).map_err(|_| NoMemory)?;
        let code = Code::new(alloc, loaded(alloc, config, bytes)?)?;
        let id = CoreId(0);
        let core = CoreNode::start(alloc, config, id, code.entry(id))?;
        Ok(Runner {
            code,
            core,
            out: Outgoing::new(alloc),
            answered: Outgoing::new(alloc),
            tid: 0,
            sum: 0,
        })
    }

    /// Hands the core a message of a node that exists.
    fn hand(&mut self, src: NodeId, msg: &Msg) -> Result<(), NoMemory> {
        if let NodeId::Dir(dir) = src
            && dir.0 >= self.code.config().dirs()
        {
            return Ok(());
        }
        self.sum = self.sum.wrapping_add(1);
        match self.core.deliver(src, msg, &mut self.out) {
            Err(CoreError::Memory) => Err(NoMemory),
            _ => Ok(()),
        }
    }

    /// Answers the k-th message of those that are answered now.
    fn answer(&mut self, k: usize) -> Result<(), NoMemory> {
        let Some((dst, msg)) = self.answered.list.get(k).copied() else {
            return Ok(());
        };
        if msg == Msg::TidReq {
            self.tid = self.tid.wrapping_add(1);
        }
        match reply(&msg, self.tid) {
            Some(back) => self.hand(dst, &back),
            None => Ok(()),
        }
    }

    /// Answers what the core sent, and what it sends then: a TID is followed by probes, these by marks.
    fn settle(&mut self) -> Result<(), NoMemory> {
        for _ in 0..3 {
            if self.out.is_empty() {
                return Ok(());
            }
            swap(&mut self.out, &mut self.answered);
            for k in 0..self.answered.len() {
                self.answer(k)?;
            }
            self.answered.clear();
        }
        Ok(())
    }

    /// Executes once, and says whether a transaction committed. A core that can't go on counts as one that did.
    fn exec(&mut self) -> Result<bool, NoMemory> {
        let committed = match self.core.exec(&self.code, &mut self.out) {
            Ok(Executed::Committed(commit)) => {
                self.sum = self.sum.wrapping_add(u64::from(commit.n));
                true
            }
            Ok(_) => false,
            Err(CoreError::Blocked) => true,
            Err(CoreError::Memory) => return Err(NoMemory),
        };
        if !self.out.is_empty() {
            self.settle()?;
        }
        Ok(committed)
    }

    /// Tells the core that another one committed the first word that it loads.
    fn violate(&mut self) -> Result<(), NoMemory> {
        let msg = Msg::Inv {
            line: LineAddr(32),
            mask: Mask(1),
            tid: Tid(1),
        };
        self.hand(NodeId::Dir(DirId(0)), &msg)?;
        self.out.clear();
        Ok(())
    }

    /// A transaction, up to its commit or its violation.
    fn round(&mut self, violated_after: Option<u32>) -> Result<(), NoMemory> {
        for _ in 0..100_000 {
            if violated_after == Some(self.core.instructions()) {
                return self.violate();
            }
            if self.exec()? {
                return Ok(());
            }
        }
        Ok(())
    }
}

/// So many rounds of a kind of work, with this number of lines. Gives the checksum.
pub fn core_rounds(
    alloc: Global,
    config: &Config,
    work: Work,
    lines: u32,
    rounds: u64,
) -> Result<u64, NoMemory>
    requires { lines ≤ 500 }
{
    let mut runner = Runner::start(alloc, config, work, lines)?;
    let after = violated_after(work, lines);
    for _ in 0..rounds {
        runner.round(after)?;
    }
    Ok(runner.sum)
}
