// Useful events by random words.
ghost use Rattle.std.specs.Prelude.{◌≡◌, ◌+◌, ◌≤◌, [], OnOk, OnErr, is_some, length, if◌then◌else◌};
ghost use Rattle.std.specs.Option.{option_map};
ghost use Rattle.rand_pcg.specs.Pcg.{pcg32};
ghost use Rattle.tcc_msg.specs.Plain.{event_of};
ghost use Rattle.rules_tcc.specs.Picked.{chosen};
ghost use Rattle.rules_tcc.specs.Useful.{useful};
ghost use Rattle.net_core.specs.Machine.{program_of, settings_of, world_of};
ghost use Rattle.tcc_pick.specs.Picking.{NotedAll, TookFirst, picks};
ghost use Rattle.tcc_pick.specs.Words.{after_words, seeded};
ghost use Rattle.tcc_base.specs.Limits.{run_limit};

use crate::recorder::Recorder;
use net_core::System;
use rand_core::SeedableRng;
use rand_core::utils::NextWord;
use rand_pcg::Lcg64Xsh32;
use std::marker::Model;
use tcc_base::NoMemory;
use tcc_msg::Event;

/// A chooser of events. In a clause it is its generator.
#[derive(Drop)]
pub struct Chooser {
    words: Lcg64Xsh32,
}

impl Model for Chooser {
    ghost use Rattle.rand_pcg.specs.Lcg.{Lcg};

    ghost Value = { Lcg };

    ghost view = { λ c. c.words };
}

impl Chooser {
    /// The chooser of a seed. Takes no memory.
    pub fn new(seed: u64) -> Self
        ensures { result ≡ seeded seed }
    {
        Chooser {
            words: Lcg64Xsh32::seed_from_u64(seed),
        }
    }

    /// The chooser of a seed that has drawn so many words, as one that goes on from there has it. Takes no memory, and time in the
    /// logarithm of `drawn`.
    pub fn after(seed: u64, drawn: u64) -> Self
        ensures { result ≡ after_words drawn (seeded seed) }
    {
        let mut words = Lcg64Xsh32::seed_from_u64(seed);
        words.advance(drawn);
        Chooser { words }
    }

    /// The next event of a machine whose messages all stand on their links: with m useful events, the one at `word mod m` of them, the
    /// word being the generator's next. `None` exactly where no event is useful, and then no word is drawn.
    ///
    /// The time goes with the logarithm of the numbers of cores and of links, and with what is in flight on one link.
    pub fn next(&mut self, system: &System) -> Option<Event>
        requires { system.now.unsent ≡ [] }
        ensures chosen { option_map event_of result
            ≡ chosen (pcg32 self.old).0 (useful (settings_of system.now) (program_of system.now) (world_of system.now)) }
        ensures drawn { self.new ≡ (if is_some result then (pcg32 self.old).1 else self.old) }
    {
        let count = system.useful_count();
        if count == 0 {
            return None;
        }
        let word = self.words.next_word();
        system.useful_at(word as u64 % count)
    }

    /// The machine takes the events that the next words pick, so many at most, or fewer where none is useful any more: one word is drawn
    /// for each, and the recorder is told of it. No list of them is kept. After want of memory the machine has taken the first of them, a
    /// word may be drawn for the event at which memory ran out, and a part of what the last one adds may be written down.
    ///
    /// The time is that of the events, each by `next`, `System::step` and `Recorder::note`.
    pub fn run<R: Recorder>(
        &mut self,
        system: &mut System,
        steps: u32,
        recorder: &mut R,
    ) -> Result<(), NoMemory>
        requires { system.old.events + steps ≤ run_limit }
        ensures took { OnOk result (NotedAll system.old system.new (picks steps self.old system.old)
            R.line (R.bytes recorder.old) (R.bytes recorder.new)) }
        ensures settled { OnOk result (system.new.unsent ≡ []) }
        ensures drawn { OnOk result (self.new ≡ after_words (length (picks steps self.old system.old)) self.old) }
        ensures stopped { OnErr result (TookFirst system.old system.new (picks steps self.old system.old)) }
    {
        for _ in 0..steps {
            system.settle()?;
            let Some(e) = self.next(system) else {
                return Ok(());
            };
            match system.step(e) {
                Ok(_) => {}
                Err(_) => return Err(NoMemory),
            }
            recorder.note(&e)?;
        }
        system.settle()
    }
}
