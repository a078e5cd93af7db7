// Rounds of work at a directory: its one hot line is loaded, committed and acknowledged.
ghost use Rattle.std.specs.Prelude.{◌≡◌, ◌<◌, true};
ghost use Rattle.directory.specs.Foreign.{HasSmallTids};
ghost use Rattle.tcc_msg.specs.Plain.{msg_of};

use super::starts::loaded;
use directory::{DirError, Directory, Handled};
use std::alloc::Global;
use tcc_base::{Config, CoreId, DirId, LineAddr, Mask, NoMemory, NodeId, Tid};
use tcc_msg::{Msg, Outgoing};

/// The line that all cores share.
const LINE: LineAddr = LineAddr(0);

#[derive(Debug, Drop)]
struct Server {
    config: Config,
    dir: Directory,
    out: Outgoing,
    /// The cores that were told of a commit.
    told: Vec<CoreId>,
    /// The checksum.
    sum: u64,
    ghost shape: { dir.lines.place.shape ≡ config },
}

/// Whether a TID in the message is one that can be given.
fn has_small_tids(msg: &Msg) -> bool
    ensures { result ≡ true → HasSmallTids (msg_of msg.now) }
{
    match msg {
        Msg::Skip { tid } => tid.0 < 1 << 62,
        Msg::Abort { tid } => tid.0 < 1 << 62,
        Msg::Commit { tid, .. } => tid.0 < 1 << 62,
        _ => true,
    }
}

impl Server {
    fn start(alloc: Global, config: &Config) -> Result<Option<Server>, NoMemory> {
        if config.dirs() == 0 {
            return Ok(None);
        }
        let bytes = [0x73u8, 0, 0, 0].to_vec(alloc).map_err(|_| NoMemory)?;
        let memory = loaded(alloc, config, bytes)?;
        Ok(Some(Server {
            config: *config,
            dir: Directory::start(alloc, config, &memory, DirId(0))?,
            out: Outgoing::new(alloc),
            told: Vec::new(alloc),
            sum: 0,
        }))
    }

    /// Hands the directory a message of a core that exists, and counts what it sends and whether it takes it.
    fn hand(&mut self, core: u8, msg: &Msg) -> Result<(), NoMemory> {
        if core >= self.config.cores() || !has_small_tids(msg) {
            return Ok(());
        }
        self.out.clear();
        match self.dir.deliver(CoreId(core), msg, &mut self.out) {
            Ok(Handled::Handled) => {
                let sent = self.out.len() as u64;
                self.sum = self.sum.wrapping_add(1 + sent);
                Ok(())
            }
            Err(DirError::Memory) => Err(NoMemory),
            _ => Ok(()),
        }
    }

    /// All cores load the line.
    fn load(&mut self) -> Result<(), NoMemory> {
        for core in 0..self.config.cores() {
            let after = Tid(0);
            self.hand(core, &Msg::LoadReq { line: LINE, after })?;
        }
        Ok(())
    }

    /// A core marks and commits the line, and notes who was told of it.
    fn commit(&mut self, core: u8, tid: Tid) -> Result<(), NoMemory> {
        let (line, mask) = (LINE, Mask(1));
        self.hand(core, &Msg::Mark { line, mask, tid })?;
        self.hand(core, &Msg::Commit { tid, count: 1 })?;
        self.told.clear();
        for (dst, _) in self.out.list.iter() {
            if let NodeId::Core(told) = dst {
                self.told.push(*told).map_err(|_| NoMemory)?;
            }
        }
        Ok(())
    }

    /// Each core that was told acknowledges, and keeps nothing.
    fn acknowledge(&mut self) -> Result<(), NoMemory> {
        let ack = Msg::InvAck {
            line: LINE,
            keeps: false,
        };
        for k in 0..self.told.len() {
            if let Some(core) = self.told.get(k).copied() {
                self.hand(core.0, &ack)?;
            }
        }
        Ok(())
    }

    /// The committed word comes home.
    fn come_home(&mut self, core: u8, tag: Tid) -> Result<(), NoMemory> {
        let msg = Msg::Flush {
            line: LINE,
            mask: Mask(1),
            words: [core as u32, 0, 0, 0, 0, 0, 0, 0],
            tag,
        };
        self.hand(core, &msg)
    }

    /// The commit of one TID; of a hot line, after loads of all cores.
    fn round(&mut self, hot: bool, number: u64) -> Result<(), NoMemory> {
        let core = if hot { (number % 64) as u8 } else { 0 };
        let tid = Tid(number.wrapping_add(1));
        if hot {
            self.load()?;
        }
        self.commit(core, tid)?;
        self.acknowledge()?;
        self.come_home(core, tid)
    }
}

/// So many rounds, with all cores or with one. Gives the checksum.
pub fn dir_rounds(alloc: Global, config: &Config, hot: bool, rounds: u64) -> Result<u64, NoMemory> {
    let Some(mut server) = Server::start(alloc, config)? else {
        return Ok(0);
    };
    for number in 0..rounds {
        server.round(hot, number)?;
    }
    Ok(server.sum)
}
