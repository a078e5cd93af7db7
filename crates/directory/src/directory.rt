// A directory: its parts, and the readers of what it knows.
ghost use Rattle.std.specs.Prelude.{◌≡◌, ℕ, ◌^◌, ◌<◌, ◌≤◌, ◌↔◌, true, false, Err, IfOk, OnOk, OnErr, IsTrue, option_map};
ghost use Rattle.rules_maps.specs.Words.{count_below, eight, word_at};
ghost use Rattle.rules_maps.specs.Words.{line_of as line_number};
ghost use Rattle.rules_maps.specs.Shape.{lines as line_count};
ghost use Rattle.rules_maps.specs.Lines.{has_mark};
ghost use Rattle.rules_tcc.specs.State.{dir_start};
ghost use Rattle.rules_tcc.specs.DirDeliver.{dir_deliver};
ghost use Rattle.image_load.specs.Contents.{started};
ghost use Rattle.dir_lines.specs.Home.{IsAtHome};
ghost use Rattle.tcc_msg.specs.Plain.{msg_of};
ghost use Rattle.directory.specs.Data.{DirData, dir_of};
ghost use Rattle.directory.specs.Foreign.{is_foreign, HasSmallTids};
ghost use Rattle.directory.specs.Gives.{Gives};
ghost use Rattle.directory.specs.Leaves.{Leaves};

use crate::handled::{DirError, Handled};
use crate::loading::load_words;
use dir_lines::{DirLines, HomeWords};
use image_load::Loaded;
use skip_vector::SkipVector;
use std::alloc::Global;
use std::marker::Model;
use tcc_base::{Config, CoreId, DirId, LineAddr, Mask, NoMemory, Tid, WordAddr};
use tcc_msg::{Msg, Outgoing};

/// What is known of one line.
#[derive(Clone, Copy, Debug, PartialEq, Eq)]
pub struct LineState {
    /// The words that the served TID marked.
    pub mark: Mask,
    /// The core whose last commit of the line hasn't come home yet.
    pub owner: Option<CoreId>,
    /// Whether the owner was asked for its data.
    pub asked: bool,
    /// The TID of the line's last commit, or 0.
    pub tag: Tid,
}

/// One directory of a machine (Chafi et al., "A Scalable, Non-blocking Approach to Transactional Memory", HPCA 2007): the words
/// and records of the lines that are at home there, the TID that it serves with those that it skips, and how many acknowledgements
/// are owed. In a clause it is plain data, and `dir_of` makes of it the state of the protocol's rules. `dir_of` takes for the words
/// of other homes whatever stands elsewhere: a directory neither reads nor changes them.
#[derive(Debug, Drop)]
pub struct Directory {
    pub(crate) lines: DirLines,
    pub(crate) words: HomeWords,
    pub(crate) skips: SkipVector,
    pub(crate) owed: usize,
}

impl Model for Directory {
    ghost use Rattle.directory.specs.Data.{DirData};

    ghost Value = { DirData };

    ghost use Rattle.directory.specs.DataInside.{data_of, IsDirectory};

    ghost view = { data_of };

    ghost invariant = { IsDirectory };
}

impl Directory {
    /// A directory at the start: it serves TID 1, its home words are the loaded words, and nothing else is known. Its time and
    /// memory go with the number of lines that are at home here.
    pub fn start(
        alloc: Global,
        cfg: &Config,
        loaded: &Loaded,
        id: DirId,
    ) -> Result<Directory, NoMemory>
        requires exists { id.0 < cfg.now.dirs }
        requires made_for { loaded.now.settings ≡ cfg.now }
        ensures place { IfOk result (λ d. d.lines.place ≡ record { shape = cfg.now; dir = id.0 }) }
        ensures words_place { IfOk result (λ d. d.words.place ≡ d.lines.place) }
        ensures start { IfOk result (λ d. dir_of (started loaded.now).word d ≡ dir_start (started loaded.now).word) }
        ensures fits { IfOk result (λ d. (w : ℕ) → IsAtHome d.lines.place (line_number w) → (started loaded.now).word w < 2 ^ 32) }
    {
        let lines = DirLines::new(alloc, cfg, id)?;
        let mut words = HomeWords::new(alloc, cfg, id)?;
        load_words(&mut words, cfg, id, loaded);
        Ok(Directory {
            lines,
            words,
            skips: SkipVector::new(alloc),
            owed: 0,
        })
    }

    /// The TID that is served now. It takes constant time.
    pub fn serving(&self) -> Tid
        ensures { (elsewhere : ℕ → ℕ) → result.0 ≡ (dir_of elsewhere self.now).serving.serving }
    {
        self.skips.serving()
    }

    /// How many acknowledgements are owed for the commit that is served. It takes constant time.
    #[tactic(auto, unfolding(crate::specs::Data::dir_of))]
    pub fn owed(&self) -> u64
        ensures { (elsewhere : ℕ → ℕ) → result ≡ (dir_of elsewhere self.now).owed }
    {
        self.owed as u64
    }

    /// The number of marked lines. It takes constant time.
    pub fn marked_lines(&self) -> u32
        ensures { (elsewhere : ℕ → ℕ)
            → result ≡ count_below (has_mark (dir_of elsewhere self.now).lines) (line_count self.now.lines.place.shape) }
    {
        self.lines.marked_lines()
    }

    /// The home word of that number, of a line that is at home here. It takes constant time.
    pub fn word(&self, w: WordAddr) -> u32
        requires { IsAtHome self.now.lines.place (line_number w.0) }
        ensures { (elsewhere : ℕ → ℕ) → result ≡ (dir_of elsewhere self.now).words w.0 }
    {
        self.words.word(w)
    }

    /// The eight home words of a line that is at home here. It takes constant time.
    pub fn line_words(&self, line: LineAddr) -> [u32; 8]
        requires { IsAtHome self.now.lines.place line.0 }
        ensures { (elsewhere : ℕ → ℕ) → result ≡ eight (λ k. (dir_of elsewhere self.now).words (word_at line.0 k)) }
    {
        self.words.line(line)
    }

    /// What is known of a line that is at home here. It takes constant time.
    pub fn line_state(&self, line: LineAddr) -> LineState
        requires { IsAtHome self.now.lines.place line.0 }
        ensures mark { (elsewhere : ℕ → ℕ) → result.mark.0 ≡ (dir_of elsewhere self.now).lines.mark line.0 }
        ensures owner { (elsewhere : ℕ → ℕ) → option_map (λ c. c.0) result.owner ≡ (dir_of elsewhere self.now).lines.owner line.0 }
        ensures asked { (elsewhere : ℕ → ℕ) → result.asked ≡ (dir_of elsewhere self.now).lines.asked line.0 }
        ensures tag { (elsewhere : ℕ → ℕ) → result.tag.0 ≡ (dir_of elsewhere self.now).lines.tag line.0 }
    {
        let record = self.lines.get(line);
        LineState {
            mark: record.mark,
            owner: record.owner,
            asked: record.asked,
            tag: record.tag,
        }
    }

    /// Handles a message from a core, by the rule for its kind. `gives` says all of it: the rule's answer for the state before is
    /// what is answered, with the state after and what was sent, in order and to each destination. `leaves` says which messages
    /// that wait need no look then. After an error the directory and what is sent are as before; want of memory can come where
    /// something is sent or a TID is skipped ahead.
    #[inline(always)]
    pub fn deliver(
        &mut self,
        src: CoreId,
        msg: &Msg,
        out: &mut Outgoing,
    ) -> Result<Handled, DirError>
        requires core { src.0 < self.old.lines.place.shape.cores }
        requires tids { HasSmallTids (msg_of msg.now) }
        ensures place { self.new.lines.place ≡ self.old.lines.place }
        ensures gives { IfOk result
            (λ h. Gives self.old self.new out.old.list.items out.new.list.items h
            (λ s. dir_deliver self.old.lines.place.shape s src.0 (msg_of msg.now))) }
        ensures leaves { OnOk result
            ((elsewhere : ℕ → ℕ) → Leaves (msg_of msg.now) (dir_of elsewhere self.old) (dir_of elsewhere self.new)) }
        ensures foreign { (result ≡ Err DirError.Foreign) ↔ (is_foreign self.old.lines.place (msg_of msg.now) ≡ true) }
        ensures unchanged { OnErr result (self.new ≡ self.old) }
        ensures unsent { OnErr result (out.new.list.items ≡ out.old.list.items) }
    {
        if self.is_foreign(msg) {
            return Err(DirError::Foreign);
        }
        match self.take(src, msg, out) {
            Ok(handled) => Ok(handled),
            Err(NoMemory) => Err(DirError::Memory),
        }
    }

    // Whether the message isn't of a directory's kind, or its line isn't at home here.
    pub(crate) fn is_foreign(&self, msg: &Msg) -> bool
        ensures { result ≡ is_foreign self.now.lines.place (msg_of msg.now) }
    {
        match msg {
            Msg::Skip { .. } | Msg::Abort { .. } | Msg::Probe { .. } | Msg::Commit { .. } => false,
            Msg::LoadReq { line, .. }
            | Msg::Mark { line, .. }
            | Msg::InvAck { line, .. }
            | Msg::WriteBack { line, .. }
            | Msg::Flush { line, .. } => !self.lines.has_line(*line),
            _ => true,
        }
    }

    // The rule for the message's kind.
    fn take(&mut self, src: CoreId, msg: &Msg, out: &mut Outgoing) -> Result<Handled, NoMemory>
        requires core { src.0 < self.old.lines.place.shape.cores }
        requires home { is_foreign self.old.lines.place (msg_of msg.now) ≡ false }
        requires tids { HasSmallTids (msg_of msg.now) }
        ensures place { self.new.lines.place ≡ self.old.lines.place }
        ensures gives { IfOk result
            (λ h. Gives self.old self.new out.old.list.items out.new.list.items h
            (λ s. dir_deliver self.old.lines.place.shape s src.0 (msg_of msg.now))) }
        ensures unchanged { OnErr result (self.new ≡ self.old) }
        ensures unsent { OnErr result (out.new.list.items ≡ out.old.list.items) }
    {
        match msg {
            Msg::Skip { tid } => self.skip(*tid, out),
            Msg::Abort { tid } => self.abort(*tid, out),
            Msg::Probe { tid } => self.probe(src, *tid, out),
            Msg::LoadReq { line, after } => self.load(src, *line, *after, out),
            Msg::Mark { line, mask, tid } => self.mark(*line, *mask, *tid, out),
            Msg::Commit { tid, count } => self.commit(src, *tid, *count, out),
            Msg::InvAck { line, keeps } => Ok(self.acknowledge(src, *line, *keeps, out)),
            Msg::WriteBack {
                mask,
                line,
                words,
                tag,
            } => Ok(self.take_home(src, *line, *mask, words, *tag, out)),
            Msg::Flush {
                mask,
                line,
                words,
                tag,
            } => Ok(self.take_home(src, *line, *mask, words, *tag, out)),
            _ => Ok(Handled::Waits),
        }
    }
}
