// Where the events of a run come from.
ghost use Rattle.std.specs.Prelude.{◌≡◌, ◌≤◌, IfSome, List as Seq, None, [], drop, length, map};
ghost use Rattle.image_load.specs.Start.{Start};
ghost use Rattle.rv_code.specs.Machine.{program};
ghost use Rattle.tcc_base.specs.Settings.{IsAllowed};
ghost use Rattle.rules_maps.specs.Nodes.{Event as PlainEvent};
ghost use Rattle.tcc_msg.specs.Plain.{event_of};
ghost use Rattle.tcc_pick.specs.Words.{after_words, seeded, words};
ghost use Rattle.rules_tcc.specs.Picked.{picked};
ghost use Rattle.rules_tcc.specs.State.{World};
ghost use Rattle.net_core.specs.Machine.{start_of, world_of};
ghost use Rattle.watch_run.specs.Going.{IsFirst};

use net_core::System;
use tcc_base::Config;
use tcc_msg::Event;
use tcc_pick::Chooser;

/// A law: settings that are there are allowed.
pub(crate) fn settings_are_allowed(config: &Config)
    ensures { IsAllowed config.now }
{
    config.cores();
}

/// What gives the events of a run, one after another.
pub trait Events {
    /// The events that it gives from here on for a machine with this start and in this state, which takes each.
    ghost coming: { Self → Start → World → Seq PlainEvent };

    /// The next event for a machine on whose links stands all that was sent; None where there is none.
    fn next(&mut self, system: &System) -> Option<Event>
        requires { system.now.unsent ≡ [] }
        ensures none { result ≡ None → coming self.old (start_of system.now) (world_of system.now) ≡ [] }
        ensures some { IfSome result (λ e. 1 ≤ length (coming self.old (start_of system.now) (world_of system.now))) }
        ensures first { IfSome result (λ e. IsFirst (coming self.old (start_of system.now) (world_of system.now)) (coming self.new)
            system.now (event_of e)) };
}

/// Useful events that a seed picks, as many as are left at most.
#[derive(Drop)]
pub struct Picked {
    chooser: Chooser,
    left: u64,
}

impl Picked {
    /// At most so many events by this seed. Takes no memory.
    pub fn new(seed: u64, steps: u64) -> Picked
        ensures chooser { result.chooser ≡ seeded seed }
        ensures left { result.left ≡ steps }
    {
        Picked {
            chooser: Chooser::new(seed),
            left: steps,
        }
    }

    /// At most so many events by this seed, of whose words so many were drawn before. Takes no memory, and time in the logarithm of
    /// `drawn`.
    pub fn after(seed: u64, drawn: u64, steps: u64) -> Picked
        ensures chooser { result.chooser ≡ after_words drawn (seeded seed) }
        ensures left { result.left ≡ steps }
    {
        Picked {
            chooser: Chooser::after(seed, drawn),
            left: steps,
        }
    }
}

impl Events for Picked {
    ghost coming = { λ p s w. picked s.settings (program s) (words p.left p.chooser) w };

    fn next(&mut self, system: &System) -> Option<Event> {
        if self.left == 0 {
            return None;
        }
        self.left -= 1;
        self.chooser.next(system)
    }
}

/// The events of a list, in its order.
#[derive(Drop)]
pub struct Listed<'a> {
    events: &'a [Event],
    at: usize,
}

impl<'a> Listed<'a> {
    /// These events, from the first on. Takes no memory.
    pub fn new(events: &'a [Event]) -> Listed<'a>
        ensures events { result.events.now ≡ events.now }
        ensures at { result.at ≡ 0 }
    {
        Listed { events, at: 0 }
    }
}

impl<'a> Events for Listed<'a> {
    ghost coming = { λ l s w. map event_of (drop l.at l.events.now) };

    fn next(&mut self, _system: &System) -> Option<Event> {
        let Some(&event) = self.events.get(self.at) else {
            return None;
        };
        self.at += 1;
        Some(event)
    }
}
