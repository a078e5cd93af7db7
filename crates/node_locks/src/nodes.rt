// All nodes of a machine, in one thread.
ghost use Rattle.std.specs.Prelude.{◌≡◌, ℕ, ◌<◌, [], IfOk, IfErr, All, map};
ghost use Rattle.std.specs.Arc.{arc_value};
ghost use Rattle.image_load.specs.Contents.{started};
ghost use Rattle.rules_apart.specs.Fitting.{FitLogs, node_count};
ghost use Rattle.node_locks.specs.Turns.{ActedAt};
ghost use Rattle.node_locks.specs.Wiring.{AreNodes, logs_of};

use crate::closing::{fit, take_logs};
use crate::making::{join_all, seat_all};
use crate::ringing::hang_bells;
use apart_node::{Act, Node};
use image_load::Loaded;
use rules_apart::Logs;
use rv_code::Code;
use std::alloc::Global;
use std::marker::Model;
use std::sync::{Arc, Wait};
use tcc_base::NoMemory;

/// All nodes of a machine with their links, in the order of nodes. Contracts see the program and the nodes.
#[derive(Drop)]
pub struct Nodes {
    pub(crate) code: Arc<Code, Global>,
    pub(crate) nodes: Vec<Node>,
}

impl Model for Nodes {
    ghost use Rattle.std.specs.Arc.{arc_value};
    ghost use Rattle.node_locks.specs.Wiring.{NodesData, AreNodes};

    ghost Value = { NodesData };

    ghost view = { λ n. record { code = arc_value n.code; nodes = n.nodes.items } };

    ghost invariant = { λ n. AreNodes (arc_value n.code) n.nodes.items };
}

impl Nodes {
    /// The nodes as they start from a loaded memory: none has done anything.
    pub fn new(alloc: Global, loaded: &Loaded) -> Result<Nodes, NoMemory>
        ensures code { IfOk result (λ n. n.code ≡ loaded.now) }
        ensures logs { IfOk result (λ n. All (λ log. log ≡ []) (logs_of n.nodes)) }
    {
        let Ok(code) = Arc::new(alloc, Code::new(alloc, loaded.copy()?)?) else {
            return Err(NoMemory);
        };
        let rooms = join_all(alloc, code.config())?;
        let mut nodes = seat_all(alloc, &code, loaded, rooms)?;
        hang_bells(nodes.as_mut_slice(), code.config().cores() as usize)?;
        Ok(Nodes { code, nodes })
    }

    /// How many nodes there are: the cores, the directories and the vendor.
    pub fn count(&self) -> u32
        ensures { result ≡ node_count self.now.code.settings }
    {
        let config = self.code.config();
        config.cores() as u32 + config.dirs() as u32 + 1
    }

    /// `Node::act` of one node. The others, and the program, are as before.
    pub fn act<R: Wait>(&mut self, rt: &R, node: u32, pick: u32) -> Act
        requires { node < node_count self.old.code.settings }
        ensures { ActedAt node pick self.old self.new result }
    {
        let acting = &mut self.nodes[node as usize];
        acting.act(rt, pick)
    }

    /// All logs. Memory for them is taken first, and when it runs out, the nodes come back as they were.
    pub fn close<R: Wait>(self, rt: &R, alloc: Global) -> Result<Logs, (Nodes, NoMemory)>
        ensures fits { IfOk result (λ l. FitLogs (started self.code) l.by_node) }
        ensures config { IfOk result (λ l. l.config ≡ self.code.settings) }
        ensures logs { IfOk result (λ l. l.by_node ≡ logs_of self.nodes) }
        ensures back { IfErr result (λ e. e.0 ≡ self) }
    {
        let Ok(by_node) = Vec::with_capacity(alloc, self.nodes.len()) else {
            return Err((self, NoMemory));
        };
        let Nodes { code, mut nodes } = self;
        fit(rt, &code, nodes.as_mut_slice());
        Ok(Logs {
            config: *code.config(),
            by_node: take_logs(nodes, by_node),
        })
    }
}
