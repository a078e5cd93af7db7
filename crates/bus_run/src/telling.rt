// What each event did as a text.
ghost use Rattle.std.specs.Prelude.{◌≡◌, ◌+◌, ◌++◌, ◌≤◌, [], OnOk, map, string_bytes, false, if◌then◌else◌};
ghost use Rattle.bus_tcc.specs.Machine.{bus_event_of};
ghost use Rattle.bus_trace.specs.Text.{bus_event_and_facts};
ghost use Rattle.bus_watch.specs.Plain.{bus_fact_of};
ghost use Rattle.bus_run.specs.Going.{Led, coming};
ghost use Rattle.bus_run.specs.Laws.{led-more, led-none};
ghost use Rattle.tcc_base.specs.Limits.{run_limit};

use crate::running::BusRun;
use bus_tcc::BusEvent;
use bus_trace::push_bus_event_facts;
use bus_watch::BusFact;
use tcc_base::NoMemory;
use text_runs::TextRun;

/// Appends what an event did, where it is shown.
pub(crate) fn push_shown(
    text: &mut String,
    shown: bool,
    e: &BusEvent,
    facts: &[BusFact],
) -> Result<(), NoMemory>
    ensures { OnOk result (string_bytes text.new ≡ string_bytes text.old
        ++ (if shown then bus_event_and_facts (bus_event_of e.now) (map bus_fact_of facts.now) else [])) }
{
    if !shown {
        return Ok(());
    }
    match push_bus_event_facts(text, e, facts) {
        Ok(()) => Ok(()),
        Err(_) => Err(NoMemory),
    }
}

impl TextRun for BusRun {
    ghost leads = { Led false };

    ghost left = { λ r. r.left };

    ghost can = { λ r. r.system.events + r.left ≤ run_limit };

    ghost ended = { λ r. coming r ≡ [] };

    fn tell_next(&mut self, shown: bool, text: &mut String) -> Result<bool, NoMemory> {
        let Some(e) = self.take_next()? else {
            return Ok(false);
        };
        push_shown(text, shown, &e, &self.facts.items)?;
        Ok(true)
    }

    ghost stays = { led-none false };

    ghost goes_on = { led-more false };
}
