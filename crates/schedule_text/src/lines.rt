// The lines of a text, each read from the front: what it says, and the bytes after it.
ghost use Rattle.std.specs.Prelude.{◌≡◌, Some, None, IfSome, IfNone, nat_lt, if◌then◌else◌};
ghost use Rattle.tcc_base.specs.Limits.{text_limit};
ghost use Rattle.tcc_base.specs.Settings.{IsAllowed};
ghost use Rattle.schedule_text.specs.WellFormed.{one_is_core};
ghost use Rattle.schedule_text.specs.Grammar.{version_of};
ghost use Rattle.schedule_text.specs.Reading.{Reads, version_at, settings_at, core_node_at, dir_node_at, vendor_at, node_at, exec_at};
ghost use Rattle.schedule_text.specs.Reading.{evict_at, deliver_at, event_at, end_at};

use crate::fields::{below, field, number, word};
use tcc_base::{Config, CoreId, DirId, NodeId};
use tcc_msg::{Event, Name};

/// A schedule has at most this many events.
const MOST_EVENTS: usize = 4_194_304;

/// The version that the text of a schedule with these settings has.
pub fn version_needed(config: &Config) -> u64
    ensures { result ≡ version_of config.now }
{
    if config.cores() <= 16 && config.dirs() <= 16 {
        1
    } else {
        2
    }
}

/// The first line: its version.
#[tactic(auto, unfolding(crate::specs::Reading::version_at))]
pub fn version(bytes: &[u8]) -> Option<(u64, &[u8])>
    ensures { Reads (λ x. (x.0, x.1.now)) result (version_at bytes.now) }
{
    let (version, rest) = field(bytes, b"tcc-schedule ", b'\n')?;
    if version == 1 || version == 2 {
        Some((version, rest))
    } else {
        None
    }
}

/// The second line: the settings, where all limits allow them.
#[tactic(auto, unfolding(crate::specs::Reading::settings_at))]
pub fn config(bytes: &[u8]) -> Option<(Config, &[u8])>
    ensures found { IfSome result (λ x. IsAllowed x.0 × (settings_at bytes.now ≡ Some (x.0, x.1.now))) }
    ensures none { IfNone result (IfSome (settings_at bytes.now) (λ x. IsAllowed x.0 → ⊥)) }
{
    let (cores, rest) = field(bytes, b"cores ", b' ')?;
    let (dirs, rest) = field(rest, b"dirs ", b' ')?;
    let (sets, rest) = field(rest, b"sets ", b' ')?;
    let (ways, rest) = field(rest, b"ways ", b' ')?;
    let (base, rest) = field(rest, b"base ", b' ')?;
    let (ram, rest) = field(rest, b"ram ", b'\n')?;
    match Config::new(cores, dirs, sets, ways, base, ram) {
        Ok(config) => Some((config, rest)),
        Err(_) => None,
    }
}

#[tactic(auto, unfolding(crate::specs::Reading::core_node_at))]
fn core_node<'a>(config: &Config, bytes: &'a [u8]) -> Option<(NodeId, &'a [u8])>
    ensures { Reads (λ x. (x.0, x.1.now)) result (core_node_at config.now bytes.now) }
{
    let rest = word(bytes, b"c")?;
    let (core, rest) = below(rest, b' ', config.cores() as u64)?;
    Some((NodeId::Core(CoreId(core as u8)), rest))
}

#[tactic(auto, unfolding(crate::specs::Reading::dir_node_at))]
fn dir_node<'a>(config: &Config, bytes: &'a [u8]) -> Option<(NodeId, &'a [u8])>
    ensures { Reads (λ x. (x.0, x.1.now)) result (dir_node_at config.now bytes.now) }
{
    let rest = word(bytes, b"d")?;
    let (dir, rest) = below(rest, b' ', config.dirs() as u64)?;
    Some((NodeId::Dir(DirId(dir as u8)), rest))
}

#[tactic(auto, unfolding(crate::specs::Reading::vendor_at))]
fn vendor(bytes: &[u8]) -> Option<(NodeId, &[u8])>
    ensures { Reads (λ x. (x.0, x.1.now)) result (vendor_at bytes.now) }
{
    let rest = word(bytes, b"v ")?;
    Some((NodeId::Vendor, rest))
}

/// A node of the machine, and the space after it.
#[tactic(auto, unfolding(crate::specs::Reading::node_at))]
fn node<'a>(config: &Config, bytes: &'a [u8]) -> Option<(NodeId, &'a [u8])>
    ensures { Reads (λ x. (x.0, x.1.now)) result (node_at config.now bytes.now) }
{
    if let Some(found) = core_node(config, bytes) {
        return Some(found);
    }
    if let Some(found) = dir_node(config, bytes) {
        return Some(found);
    }
    vendor(bytes)
}

#[tactic(auto, unfolding(crate::specs::Reading::exec_at))]
fn exec<'a>(config: &Config, bytes: &'a [u8]) -> Option<(Event, &'a [u8])>
    ensures { Reads (λ x. (x.0, x.1.now)) result (exec_at config.now bytes.now) }
{
    let rest = word(bytes, b"e ")?;
    let (core, rest) = below(rest, b'\n', config.cores() as u64)?;
    Some((Event::Exec(CoreId(core as u8)), rest))
}

#[tactic(auto, unfolding(crate::specs::Reading::evict_at))]
fn evict<'a>(config: &Config, bytes: &'a [u8]) -> Option<(Event, &'a [u8])>
    ensures { Reads (λ x. (x.0, x.1.now)) result (evict_at config.now bytes.now) }
{
    let rest = word(bytes, b"x ")?;
    let (core, rest) = below(rest, b' ', config.cores() as u64)?;
    let (set, rest) = below(rest, b' ', config.sets() as u64)?;
    let (way, rest) = below(rest, b'\n', config.ways() as u64)?;
    Some((
        Event::Evict(CoreId(core as u8), set as u16, way as u8),
        rest,
    ))
}

/// Whether exactly one of the nodes is a core.
fn is_link(src: NodeId, dst: NodeId) -> bool
    ensures { result ≡ one_is_core src dst }
{
    match (src, dst) {
        (NodeId::Core(_), NodeId::Core(_)) => false,
        (NodeId::Core(_), _) | (_, NodeId::Core(_)) => true,
        _ => false,
    }
}

#[tactic(auto, unfolding(crate::specs::Reading::deliver_at))]
fn deliver<'a>(config: &Config, bytes: &'a [u8]) -> Option<(Event, &'a [u8])>
    ensures { Reads (λ x. (x.0, x.1.now)) result (deliver_at config.now bytes.now) }
{
    let rest = word(bytes, b"d ")?;
    let (src, rest) = node(config, rest)?;
    let (dst, rest) = node(config, rest)?;
    let (seq, rest) = number(rest, b'\n')?;
    if is_link(src, dst) {
        Some((Event::Deliver(Name { src, dst, seq }), rest))
    } else {
        None
    }
}

#[tactic(auto, unfolding(crate::specs::Reading::event_at))]
fn event<'a>(config: &Config, bytes: &'a [u8]) -> Option<(Event, &'a [u8])>
    ensures { Reads (λ x. (x.0, x.1.now)) result (event_at config.now bytes.now) }
{
    if let Some(found) = exec(config, bytes) {
        return Some(found);
    }
    if let Some(found) = evict(config, bytes) {
        return Some(found);
    }
    deliver(config, bytes)
}

/// The line of an event, where there may be one more.
pub fn next_event<'a>(config: &Config, count: usize, bytes: &'a [u8]) -> Option<(Event, &'a [u8])>
    ensures { Reads (λ x. (x.0, x.1.now)) result (if nat_lt count text_limit then event_at config.now bytes.now else None) }
{
    if count < MOST_EVENTS {
        event(config, bytes)
    } else {
        None
    }
}

/// The last line: the number of events.
#[tactic(auto, unfolding(crate::specs::Reading::end_at))]
pub fn end(bytes: &[u8]) -> Option<(u64, &[u8])>
    ensures { Reads (λ x. (x.0, x.1.now)) result (end_at bytes.now) }
{
    field(bytes, b"end ", b'\n')
}
