// All nodes of a machine, and what they have sent.
use crate::answers::Answer;
use crate::messages::push_node;
use crate::states::{push_core, push_dir, push_vendor};
use crate::steps::Step;
use crate::tested_core::TestedCore;
use crate::tested_dir::TestedDir;
use crate::tested_vendor::TestedVendor;
use image_load::Loaded;
use rv_code::Code;
use std::alloc::{AllocError, Global};
use tcc_base::{CoreId, DirId, NoMemory, NodeId};
use tcc_msg::{Msg, Name, Outgoing};

/// A message that was sent; once it is consumed, it is gone.
#[derive(Clone, Copy)]
pub struct Posted {
    pub name: Name,
    pub msg: Msg,
    pub gone: bool,
}

#[derive(Drop)]
pub struct Nodes {
    cores: Vec<TestedCore>,
    dirs: Vec<TestedDir>,
    vendor: TestedVendor,
    posted: Vec<Posted>,
}

impl Nodes {
    /// No cores and no directories.
    pub fn new(alloc: Global) -> Nodes {
        Nodes {
            cores: Vec::new(alloc),
            dirs: Vec::new(alloc),
            vendor: TestedVendor::start(),
            posted: Vec::new(alloc),
        }
    }

    /// All nodes as they start, and no message, in place of those that are there.
    pub fn start(&mut self, alloc: Global, loaded: Loaded) -> Result<(), NoMemory> {
        self.dirs.clear();
        self.cores.clear();
        self.vendor = TestedVendor::start();
        self.posted.clear();
        self.start_dirs(alloc, &loaded)?;
        self.start_cores(alloc, &Code::new(alloc, loaded)?)
    }

    fn start_dirs(&mut self, alloc: Global, loaded: &Loaded) -> Result<(), NoMemory> {
        for number in 0..loaded.config().dirs() {
            TestedDir::start(&mut self.dirs, alloc, loaded, DirId(number))?;
        }
        Ok(())
    }

    fn start_cores(&mut self, alloc: Global, code: &Code) -> Result<(), NoMemory> {
        for number in 0..code.config().cores() {
            TestedCore::start(&mut self.cores, alloc, code.copy(alloc)?, CoreId(number))?;
        }
        Ok(())
    }

    /// Appends a node with its state.
    pub fn push_state(&self, text: &mut String, node: NodeId) -> Result<(), AllocError> {
        push_node(text, node)?;
        text.push_str(" ")?;
        match node {
            NodeId::Core(core) => match self.cores.get(core.0 as usize) {
                Some(core) => push_core(text, core),
                None => text.push_str("doesn't exist"),
            },
            NodeId::Dir(dir) => match self.dirs.get(dir.0 as usize) {
                Some(dir) => push_dir(text, dir),
                None => text.push_str("doesn't exist"),
            },
            NodeId::Vendor => push_vendor(text, &self.vendor),
        }
    }

    fn exec(&mut self, core: CoreId, out: &mut Outgoing) -> Answer {
        match self.cores.get_mut(core.0 as usize) {
            Some(core) => core.exec(out),
            None => Answer::Nothing,
        }
    }

    fn evict(&mut self, core: CoreId, set: u16, way: u8, out: &mut Outgoing) -> Answer {
        match self.cores.get_mut(core.0 as usize) {
            Some(core) => core.evict(set, way, out),
            None => Answer::Nothing,
        }
    }

    fn hand_core(&mut self, src: NodeId, core: CoreId, msg: &Msg, out: &mut Outgoing) -> Answer {
        match self.cores.get_mut(core.0 as usize) {
            Some(core) => core.deliver(src, msg, out),
            None => Answer::Nothing,
        }
    }

    fn hand_dir(&mut self, src: NodeId, dir: DirId, msg: &Msg, out: &mut Outgoing) -> Answer {
        let NodeId::Core(core) = src else {
            return Answer::Nothing;
        };
        match self.dirs.get_mut(dir.0 as usize) {
            Some(dir) => dir.deliver(core, msg, out),
            None => Answer::Nothing,
        }
    }

    fn hand(&mut self, src: NodeId, dst: NodeId, msg: &Msg, out: &mut Outgoing) -> Answer {
        match dst {
            NodeId::Core(core) => self.hand_core(src, core, msg, out),
            NodeId::Dir(dir) => self.hand_dir(src, dir, msg, out),
            NodeId::Vendor => self.vendor.deliver(src, msg, out),
        }
    }

    /// The message of this name that isn't gone.
    fn find(&self, name: Name) -> Option<Msg> {
        for posted in self.posted.iter() {
            if posted.name == name && !posted.gone {
                return Some(posted.msg);
            }
        }
        None
    }

    fn remove(&mut self, name: Name) {
        for posted in self.posted.iter_mut() {
            if posted.name == name {
                posted.gone = true;
            }
        }
    }

    fn deliver(&mut self, name: Name, out: &mut Outgoing) -> Answer {
        let Some(msg) = self.find(name) else {
            return Answer::Nothing;
        };
        let answer = self.hand(name.src, name.dst, &msg, out);
        if !answer.leaves_message() {
            self.remove(name);
        }
        answer
    }

    /// Does a step. What is sent goes out.
    pub fn act(&mut self, step: Step, out: &mut Outgoing) -> Answer {
        match step {
            Step::Exec(core) => self.exec(core, out),
            Step::Evict(core, set, way) => self.evict(core, set, way, out),
            Step::Deliver(name) => self.deliver(name, out),
            Step::Hand(src, dst, msg) => self.hand(src, dst, &msg, out),
        }
    }

    /// Keeps a message that was sent, and gives its name.
    pub fn post(&mut self, src: NodeId, dst: NodeId, msg: Msg) -> Result<Name, AllocError> {
        let before = self
            .posted
            .iter()
            .filter(|posted| posted.name.src == src && posted.name.dst == dst);
        let seq = before.count() as u64;
        let name = Name { src, dst, seq };
        self.posted.push(Posted {
            name,
            msg,
            gone: false,
        })?;
        Ok(name)
    }
}
