// The part of a node's records that an event may change.
ghost use Rattle.std.specs.Prelude.{◌≡◌, ◌<◌, [], IfOk, Some, map, true};
ghost use Rattle.image_load.specs.Start.{first_ram};
ghost use Rattle.rules_maps.specs.Bridge.{node_of};
ghost use Rattle.rules_maps.specs.Nodes.{Deliver, Evict, Exec};
ghost use Rattle.tcc_msg.specs.Plain.{event_of, msg_of};
ghost use Rattle.rules_tcc.specs.Step.{is_node};
ghost use Rattle.net_core.specs.Machine.{program_of, settings_of, start_of, world_of};
ghost use Rattle.watch.specs.Happened.{actor};
ghost use Rattle.watch_state.specs.Plain.{record_of};
ghost use Rattle.watch_changes.specs.Plain.{IsInside, part_of, reach_of};
ghost use Rattle.watch_changes.specs.Touched.{part_records, reached_by, touched, touched_by};

use crate::reach::{More, Reach, of_exec, of_msg, sets_of};
use crate::touched::{home_lines, known_lines};
use net_core::System;
use std::alloc::Global;
use std::marker::Model;
use tcc_base::{CoreId, DirId, LineAddr, List, NoMemory, NodeId};
use tcc_msg::{Event, Msg, Name};
use watch_state::{Record, add_core_part, add_directory_part, add_vendor};

/// The records of a node that an event may change: of a core's all but its frames, and those of some sets; of a directory's those of the
/// directory itself, of some lines what is known of them, and the home words of some; and the vendor's.
#[derive(Debug, Drop)]
pub(crate) struct Part {
    node: NodeId,
    sets: List<u16>,
    known: List<LineAddr>,
    words: List<LineAddr>,
}

impl Model for Part {
    ghost use Rattle.watch_changes.specs.Plain.{Listed};

    ghost Value = { Listed };

    ghost view = { λ p. record { node = p.node; sets = p.sets; known = p.known; words = p.words } };
}

impl Part {
    /// All of the vendor, of a core no frame, and of a directory no line.
    fn without_lines(alloc: Global, node: NodeId) -> Part
        ensures { result ≡ record { node = node; sets = []; known = []; words = [] } }
    {
        Part {
            node,
            sets: List::new(alloc),
            known: List::new(alloc),
            words: List::new(alloc),
        }
    }

    /// Of a core all but its frames, and those that an event may change.
    fn of_core(alloc: Global, system: &System, core: CoreId, reach: Reach) -> Result<Part, NoMemory>
        requires { core.0 < (settings_of system.now).cores }
        ensures inside { IfOk result (IsInside (settings_of system.now)) }
        ensures touched { IfOk result (λ p. part_of p
            ≡ reached_by (settings_of system.now) core.0 ((world_of system.now).cores core.0).cache (reach_of reach)) }
    {
        Ok(Part {
            node: NodeId::Core(core),
            sets: sets_of(alloc, system.core(core), reach)?,
            known: List::new(alloc),
            words: List::new(alloc),
        })
    }

    /// What an execution may change.
    #[tactic(auto, unfolding(crate::specs::Touched::touched))]
    fn by_exec(alloc: Global, system: &System, core: CoreId) -> Result<Part, NoMemory>
        requires { core.0 < (settings_of system.now).cores }
        ensures inside { IfOk result (IsInside (settings_of system.now)) }
        ensures touched { IfOk result (λ p. part_of p
            ≡ touched (settings_of system.now) (program_of system.now) (world_of system.now) (Exec core.0)) }
    {
        let reach = of_exec(system.core(core), system.code());
        Part::of_core(alloc, system, core, reach)
    }

    /// What it may change to empty a way.
    #[tactic(auto, unfolding(crate::specs::Touched::touched))]
    fn by_evict(
        alloc: Global,
        system: &System,
        core: CoreId,
        set: u16,
        way: u8,
    ) -> Result<Part, NoMemory>
        requires { core.0 < (settings_of system.now).cores }
        ensures inside { IfOk result (IsInside (settings_of system.now)) }
        ensures touched { IfOk result (λ p. part_of p
            ≡ touched (settings_of system.now) (program_of system.now) (world_of system.now) (Evict core.0 set way)) }
    {
        let reach = Reach {
            line: system.core(core).line_at(set, way),
            more: More::NoMore,
        };
        Part::of_core(alloc, system, core, reach)
    }

    /// What a delivery to a node that is a core may change.
    fn to_core(alloc: Global, system: &System, core: CoreId, name: Name) -> Result<Part, NoMemory>
        requires exists { core.0 < (settings_of system.now).cores }
        requires destination { name.dst ≡ NodeId.Core core }
        ensures inside { IfOk result (IsInside (settings_of system.now)) }
        ensures touched { IfOk result (λ p. part_of p ≡ touched (settings_of system.now) (program_of system.now) (world_of system.now)
            (Deliver (node_of name.src) (node_of name.dst) name.seq)) }
    {
        let reach = match system.in_flight(name) {
            Some(msg) => of_msg(system.core(core), msg),
            None => Reach {
                line: None,
                more: More::NoMore,
            },
        };
        Part::of_core(alloc, system, core, reach)
    }

    /// Of a directory what a message may change.
    fn by_message(alloc: Global, system: &System, dir: DirId, msg: &Msg) -> Result<Part, NoMemory>
        requires { dir.0 < (settings_of system.now).dirs }
        ensures inside { IfOk result (IsInside (settings_of system.now)) }
        ensures touched { IfOk result (λ p. part_of p
            ≡ touched_by (settings_of system.now) dir.0 ((world_of system.now).dirs dir.0).lines (Some (msg_of msg.now))) }
    {
        let config = system.config();
        Ok(Part {
            node: NodeId::Dir(dir),
            sets: List::new(alloc),
            known: known_lines(alloc, config, system.directory(dir), msg)?,
            words: home_lines(alloc, config, msg)?,
        })
    }

    /// What a delivery to a node that is a directory may change.
    fn to_directory(
        alloc: Global,
        system: &System,
        dir: DirId,
        name: Name,
    ) -> Result<Part, NoMemory>
        requires exists { dir.0 < (settings_of system.now).dirs }
        requires destination { name.dst ≡ NodeId.Dir dir }
        ensures inside { IfOk result (IsInside (settings_of system.now)) }
        ensures touched { IfOk result (λ p. part_of p ≡ touched (settings_of system.now) (program_of system.now) (world_of system.now)
            (Deliver (node_of name.src) (node_of name.dst) name.seq)) }
    {
        match system.in_flight(name) {
            Some(msg) => Part::by_message(alloc, system, dir, msg),
            None => Ok(Part::without_lines(alloc, NodeId::Dir(dir))),
        }
    }

    /// What a delivery may change, where the machine has its destination.
    #[tactic(auto, unfolding(crate::specs::Touched::touched))]
    fn by_delivery(alloc: Global, system: &System, name: Name) -> Result<Part, NoMemory>
        ensures inside { IfOk result (IsInside (settings_of system.now)) }
        ensures touched { is_node (settings_of system.now) (node_of name.dst) ≡ true → IfOk result (λ p.
            part_of p ≡ touched (settings_of system.now) (program_of system.now) (world_of system.now)
            (Deliver (node_of name.src) (node_of name.dst) name.seq)) }
    {
        let config = system.config();
        match name.dst {
            NodeId::Core(core) if core.0 < config.cores() => Part::to_core(
                alloc, system, core, name,
            ),
            NodeId::Dir(dir) if dir.0 < config.dirs() => Part::to_directory(
                alloc, system, dir, name,
            ),
            _ => Ok(Part::without_lines(alloc, NodeId::Vendor)),
        }
    }

    /// What an event may change, where the machine has its node. It takes constant time, and where marks may be cleared the time and memory
    /// of the marked frames or lines.
    #[tactic(auto, unfolding(crate::specs::Touched::touched))]
    pub(crate) fn of(alloc: Global, system: &System, e: Event) -> Result<Part, NoMemory>
        ensures inside { IfOk result (IsInside (settings_of system.now)) }
        ensures touched { is_node (settings_of system.now) (actor (event_of e)) ≡ true → IfOk result (λ p.
            part_of p ≡ touched (settings_of system.now) (program_of system.now) (world_of system.now) (event_of e)) }
    {
        let config = system.config();
        match e {
            Event::Exec(core) if core.0 < config.cores() => Part::by_exec(alloc, system, core),
            Event::Evict(core, set, way) if core.0 < config.cores() => Part::by_evict(
                alloc, system, core, set, way,
            ),
            Event::Deliver(name) => Part::by_delivery(alloc, system, name),
            _ => Ok(Part::without_lines(alloc, NodeId::Vendor)),
        }
    }

    /// The records of the part, as the machine is now.
    #[tactic(auto, unfolding(crate::specs::Touched::part_records))]
    pub(crate) fn records(&self, alloc: Global, system: &System) -> Result<List<Record>, NoMemory>
        requires { IsInside (settings_of system.now) self.now }
        ensures { IfOk result (λ rs. map record_of rs
            ≡ part_records (settings_of system.now) (first_ram (start_of system.now)) (world_of system.now) (part_of self.now)) }
    {
        let mut records = List::new(alloc);
        match self.node {
            NodeId::Core(core) => add_core_part(&mut records, system, core, &self.sets.items)?,
            NodeId::Dir(dir) => add_directory_part(
                &mut records,
                system,
                dir,
                &self.known.items,
                &self.words.items,
            )?,
            NodeId::Vendor => add_vendor(&mut records, system.next_tid())?,
        }
        Ok(records)
    }
}
