// What one directory of a machine does with a message.
ghost use Rattle.std.specs.Prelude.{◌≡◌, ◌<◌, ◌/◌, ◌↔◌, ℕ, ◌&&◌, not, true, IfOk, OnErr, Err};
ghost use Rattle.rules_maps.specs.Shape.{home, lines};
ghost use Rattle.rules_maps.specs.Words.{eight, line_of, word_at};
ghost use Rattle.tcc_msg.specs.Plain.{msg_of};
ghost use Rattle.rules_tcc.specs.DirDeliver.{dir_deliver};
ghost use Rattle.directory.specs.Foreign.{is_foreign, HasSmallTids};
ghost use Rattle.directory.specs.Gives.{is_taken};
ghost use Rattle.dir_lines.specs.Home.{IsAtHome};
ghost use Rattle.machine_dirs.specs.Acted.{Acted};
ghost use Rattle.machine_dirs.specs.Bank.{dirs_of};

use crate::bank::DirBank;
use directory::{DirError, Handled};
use tcc_base::{CoreId, DirId, LineAddr, Tid, WordAddr};
use tcc_msg::{Msg, Outgoing};

impl DirBank {
    /// A directory handles a message: `Directory::deliver` for the directory of that number.
    pub fn deliver(
        &mut self,
        dir: DirId,
        src: CoreId,
        msg: &Msg,
        out: &mut Outgoing,
    ) -> Result<Handled, DirError>
        requires exists { dir.0 < self.old.settings.dirs }
        requires core { src.0 < self.old.settings.cores }
        requires tids { HasSmallTids (msg_of msg.now) }
        ensures settings { self.new.settings ≡ self.old.settings }
        ensures does { IfOk result
            (λ h. Acted dir.0 self.old self.new out.old.list.items out.new.list.items h
            (λ s. dir_deliver self.old.settings s src.0 (msg_of msg.now))) }
        ensures foreign { (result ≡ Err DirError.Foreign) ↔
            (is_foreign (record { shape = self.old.settings; dir = dir.0 }) (msg_of msg.now) ≡ true) }
        ensures unchanged { OnErr result ((ram : ℕ → ℕ) → dirs_of ram self.new ≡ dirs_of ram self.old) }
        ensures unsent { OnErr result (out.new.list.items ≡ out.old.list.items) }
    {
        self.dirs.items[dir.0 as usize].deliver(src, msg, out)
    }

    /// Whether a directory would take the message now: `Directory::takes`. It takes constant time.
    pub fn takes(&self, dir: DirId, src: CoreId, msg: &Msg) -> bool
        requires exists { dir.0 < self.now.settings.dirs }
        requires core { src.0 < self.now.settings.cores }
        ensures { (ram : ℕ → ℕ) → result ≡ not (is_foreign (record { shape = self.now.settings; dir = dir.0 }) (msg_of msg.now))
            && is_taken (dir_deliver self.now.settings (dirs_of ram self.now dir.0) src.0 (msg_of msg.now)) }
    {
        self.dirs.items[dir.0 as usize].takes(src, msg)
    }

    /// The home word of that number. It takes constant time.
    pub fn word(&self, w: WordAddr) -> u32
        requires { w.0 < self.now.settings.ram / 4 }
        ensures { (ram : ℕ → ℕ) → result ≡ (dirs_of ram self.now (home self.now.settings (line_of w.0))).words w.0 }
    {
        let dir = self.config.home(LineAddr(w.0 / 8));
        self.dirs.items[dir.0 as usize].word(w)
    }

    /// The eight home words of a line. It takes constant time.
    pub fn line_words(&self, line: LineAddr) -> [u32; 8]
        requires { line.0 < lines self.now.settings }
        ensures { (ram : ℕ → ℕ) → result
            ≡ eight (λ k. (dirs_of ram self.now (home self.now.settings line.0)).words (word_at line.0 k)) }
    {
        let dir = self.config.home(line);
        self.dirs.items[dir.0 as usize].line_words(line)
    }

    /// The TID of a line's last commit that has come home or is on its way there, or 0. It takes constant time.
    pub fn tag(&self, line: LineAddr) -> Tid
        requires { line.0 < lines self.now.settings }
        ensures { (ram : ℕ → ℕ) → result.0 ≡ (dirs_of ram self.now (home self.now.settings line.0)).lines.tag line.0 }
    {
        let dir = self.config.home(line);
        self.dirs.items[dir.0 as usize].line_state(line).tag
    }
}
