// The records that an event may change, as they were before it.
ghost use Rattle.std.specs.Prelude.{◌≡◌, ◌++◌, IfOk, OnOk, string_bytes, true};
ghost use Rattle.tcc_msg.specs.Plain.{event_of};
ghost use Rattle.rules_tcc.specs.Step.{is_node};
ghost use Rattle.net_core.specs.Machine.{program_of, settings_of, world_of};
ghost use Rattle.watch.specs.Happened.{actor};
ghost use Rattle.watch_changes.specs.Changes.{change_lines};
ghost use Rattle.watch_changes.specs.Plain.{IsInside, IsSeen, changes_since, part_of};
ghost use Rattle.watch_changes.specs.Touched.{touched};

use crate::part::Part;
use crate::walking::push_changes;
use net_core::System;
use std::alloc::{AllocError, Global};
use std::marker::Model;
use tcc_base::{List, NoMemory};
use tcc_msg::Event;
use watch_state::Record;

/// The records that an event may change, as they were before it.
#[derive(Debug, Drop)]
pub struct Before {
    part: Part,
    records: List<Record>,
}

impl Model for Before {
    ghost use Rattle.watch_changes.specs.Plain.{Seen};

    ghost Value = { Seen };

    ghost view = { λ b. record { part = b.part; records = b.records } };
}

impl Before {
    /// Looks at the node of an event that is to come, which may name anything: at a core but for the frames that the event can't change, at
    /// a directory only at itself and at the lines of which the event may change something, and at the vendor.
    ///
    /// It takes time and memory in a core's registers, directories and the ways of one set, where marks may be cleared in those of the sets
    /// with marked frames, in all frames where a core that is alone may commit, and in the lines of RAM only while the core has spilled
    /// words; at a directory in the TIDs that it keeps as skipped, and where marks may be cleared in the marked lines.
    pub fn look(alloc: Global, system: &System, e: Event) -> Result<Before, AllocError>
        ensures seen { IfOk result (IsSeen system.now) }
        ensures touched { is_node (settings_of system.now) (actor (event_of e)) ≡ true → IfOk result (λ b.
            part_of b.part ≡ touched (settings_of system.now) (program_of system.now) (world_of system.now) (event_of e)) }
    {
        let part = match Part::of(alloc, system, e) {
            Ok(part) => part,
            Err(NoMemory) => return Err(AllocError),
        };
        match part.records(alloc, system) {
            Ok(records) => Ok(Before { part, records }),
            Err(NoMemory) => Err(AllocError),
        }
    }

    /// Looks again, after the event: appends the lines of what changed. It takes the same time and memory, and memory for the growth of
    /// the text. After want of memory a part of the lines may stand there.
    pub fn tell(&self, alloc: Global, text: &mut String, system: &System) -> Result<(), AllocError>
        requires { IsInside (settings_of system.now) self.now.part }
        ensures { OnOk result (string_bytes text.new ≡ string_bytes text.old ++ change_lines (changes_since self.now system.now)) }
    {
        match self.part.records(alloc, system) {
            Ok(records) => push_changes(text, &self.records.items, &records.items),
            Err(NoMemory) => Err(AllocError),
        }
    }
}
