// What the ways of a cache hold, each record appended to a list. Where memory runs out, the list holds a part of it.
ghost use Rattle.std.specs.Prelude.{◌≡◌, ◌<◌, ◌++◌, ◌==◌, ◌∷◌, [], OnOk, get_or, map, if◌then◌else◌};
ghost use Rattle.std.specs.List.{All, flat_map};
ghost use Rattle.rules_maps.specs.Masks.{has, masked};
ghost use Rattle.rules_tcc.specs.Seen.{numbers};
ghost use Rattle.core_node.specs.View.{core_of};
ghost use Rattle.watch_state.specs.Cores.{set_records, way_record};
ghost use Rattle.watch_state.specs.Plain.{record_of};
ghost use Rattle.watch_state.specs.Records.{Holds};
ghost use Rattle.watch_state.specs.Shown.{shown_frame};

use crate::attempts::add;
use crate::numbers::contains;
use crate::records::Record;
use core_node::CoreNode;
use spec_cache::FrameView;
use tcc_base::{CoreId, List, NoMemory, Tid};

/// The tag, 0 where no word is dirty.
fn tag_of_dirty(frame: &FrameView) -> Tid
    ensures { result.0 ≡ (if frame.now.dirty.0 == 0 then 0 else frame.now.tag.0) }
{
    if frame.dirty.0 == 0 {
        Tid(0)
    } else {
        frame.tag
    }
}

/// The word at place `k`, 0 where it isn't valid.
fn valid_word(frame: &FrameView, k: u8) -> u32
    requires { k < 8 }
    ensures { result ≡ (if has frame.now.valid.0 k then get_or frame.now.words k 0 else 0) }
{
    if contains(frame.valid.0 as u64, k) {
        frame.words[k as usize]
    } else {
        0
    }
}

/// The words, 0 where they aren't valid.
#[tactic(auto, unfolding(rules_maps::specs::Masks::masked, rules_maps::specs::Words::eight))]
fn valid_words(frame: &FrameView) -> [u32; 8]
    ensures { result ≡ masked frame.now.valid.0 frame.now.words }
{
    [
        valid_word(frame, 0),
        valid_word(frame, 1),
        valid_word(frame, 2),
        valid_word(frame, 3),
        valid_word(frame, 4),
        valid_word(frame, 5),
        valid_word(frame, 6),
        valid_word(frame, 7),
    ]
}

fn add_holds(
    records: &mut List<Record>,
    core: CoreId,
    set: u16,
    way: u8,
    frame: &FrameView,
) -> Result<(), NoMemory>
    ensures { OnOk result (map record_of records.new
        ≡ map record_of records.old ++ Holds core.0 set way (shown_frame frame.now) ∷ []) }
{
    let frame = FrameView {
        tag: tag_of_dirty(frame),
        words: valid_words(frame),
        ..*frame
    };
    let holds = Record::Holds {
        core,
        set,
        way,
        frame,
    };
    add(records, holds)
}

/// What a way holds, where it holds a line.
fn add_way(
    records: &mut List<Record>,
    id: CoreId,
    core: &CoreNode,
    set: u16,
    way: u8,
) -> Result<(), NoMemory>
    requires set_exists { set < core.now.config.sets }
    requires way_exists { way < core.now.config.ways }
    ensures { OnOk result (map record_of records.new
        ≡ map record_of records.old ++ way_record id.0 (core_of core.now).cache set way) }
{
    if let Some(frame) = core.frame(set, way) {
        add_holds(records, id, set, way, &frame)?;
    }
    Ok(())
}

/// What the ways of a set hold.
#[tactic(auto, unfolding(crate::specs::Cores::set_records, rules_maps::specs::Words::those))]
fn add_set(
    records: &mut List<Record>,
    id: CoreId,
    core: &CoreNode,
    set: u16,
    ways: u8,
) -> Result<(), NoMemory>
    requires set_exists { set < core.now.config.sets }
    requires ways { ways ≡ core.now.config.ways }
    ensures { OnOk result (map record_of records.new
        ≡ map record_of records.old ++ set_records id.0 ways (core_of core.now).cache set) }
{
    for way in 0..ways {
        add_way(records, id, core, set, way)?;
    }
    Ok(())
}

/// What all ways of a core hold.
#[tactic(auto, unfolding(rules_maps::specs::Words::those))]
pub(crate) fn add_ways(
    records: &mut List<Record>,
    id: CoreId,
    core: &CoreNode,
    sets: u16,
    ways: u8,
) -> Result<(), NoMemory>
    requires sets { sets ≡ core.now.config.sets }
    requires ways { ways ≡ core.now.config.ways }
    ensures { OnOk result (map record_of records.new
        ≡ map record_of records.old ++ flat_map (set_records id.0 ways (core_of core.now).cache) (numbers sets)) }
{
    for set in 0..sets {
        add_set(records, id, core, set, ways)?;
    }
    Ok(())
}

/// What the ways of some sets hold.
pub(crate) fn add_sets(
    records: &mut List<Record>,
    id: CoreId,
    core: &CoreNode,
    sets: &[u16],
    ways: u8,
) -> Result<(), NoMemory>
    requires exist { All (λ x. x < core.now.config.sets) sets.now }
    requires ways { ways ≡ core.now.config.ways }
    ensures { OnOk result (map record_of records.new
        ≡ map record_of records.old ++ flat_map (set_records id.0 ways (core_of core.now).cache) sets.now) }
{
    for set in sets {
        add_set(records, id, core, *set, ways)?;
    }
    Ok(())
}
