// The numbers of all cores together, and of all kinds of message.
ghost use Rattle.std.specs.Prelude.{◌≡◌, ◌+◌, ◌*◌, ◌≤◌, ◌^◌, length, map, All};
ghost use Rattle.watch_count.specs.KeptCores.{numbers_after};
ghost use Rattle.watch_count.specs.Totals.{attempts_plus, instructions_plus, accesses_plus, evictions_plus, phases_plus, core_plus};
ghost use Rattle.watch_count.specs.Totals.{all_cores as plain_all_cores, all_messages as plain_all_messages, messages_plus};
ghost use Rattle.watch_count.specs.Sizes.{attempts_size, instructions_size, accesses_size, evictions_size, phases_size};
ghost use Rattle.watch_count.specs.Sizes.{core_size, messages_size};

use crate::kept::KeptCore;
use crate::messages::MessageCounts;
use crate::tables::{Accesses, Attempts, CoreCounts, Evictions, Instructions, Phases};

#[tactic(auto, unfolding(crate::specs::Totals::attempts_plus, crate::specs::Sizes::attempts_size))]
fn add_attempts(to: &mut Attempts, more: &Attempts)
    requires { attempts_size to.old + attempts_size more.now ≤ 2 ^ 63 }
    ensures { to.new ≡ attempts_plus to.old more.now }
{
    to.begun += more.begun;
    to.committed += more.committed;
    to.violated += more.violated;
    to.still_open += more.still_open;
    to.unbroken += more.unbroken;
    to.row = to.row.max(more.row);
    to.gave_up += more.gave_up;
}

#[tactic(auto, unfolding(crate::specs::Totals::instructions_plus, crate::specs::Sizes::instructions_size))]
fn add_instructions(to: &mut Instructions, more: &Instructions)
    requires { instructions_size to.old + instructions_size more.now ≤ 2 ^ 63 }
    ensures { to.new ≡ instructions_plus to.old more.now }
{
    to.executed += more.executed;
    to.committed += more.committed;
    to.lost += more.lost;
    to.still_open += more.still_open;
}

#[tactic(auto, unfolding(crate::specs::Totals::accesses_plus, crate::specs::Sizes::accesses_size))]
fn add_accesses(to: &mut Accesses, more: &Accesses)
    requires { accesses_size to.old + accesses_size more.now ≤ 2 ^ 63 }
    ensures { to.new ≡ accesses_plus to.old more.now }
{
    to.loads += more.loads;
    to.stores += more.stores;
    to.changes += more.changes;
    to.misses += more.misses;
    to.fills += more.fills;
    to.overflows += more.overflows;
}

#[tactic(auto, unfolding(crate::specs::Totals::evictions_plus, crate::specs::Sizes::evictions_size))]
fn add_evictions(to: &mut Evictions, more: &Evictions)
    requires { evictions_size to.old + evictions_size more.now ≤ 2 ^ 63 }
    ensures { to.new ≡ evictions_plus to.old more.now }
{
    to.clean += more.clean;
    to.dirty += more.dirty;
    to.modified += more.modified;
}

#[tactic(auto, unfolding(crate::specs::Totals::phases_plus, crate::specs::Sizes::phases_size))]
fn add_phases(to: &mut Phases, more: &Phases)
    requires { phases_size to.old + phases_size more.now ≤ 2 ^ 63 }
    ensures { to.new ≡ phases_plus to.old more.now }
{
    to.running += more.running;
    to.await_tid += more.await_tid;
    to.doomed_tid += more.doomed_tid;
    to.probing += more.probing;
    to.ready += more.ready;
    to.overflowing += more.overflowing;
    to.solo += more.solo;
    to.halted += more.halted;
}

#[tactic(auto, unfolding(crate::specs::Totals::core_plus))]
fn add_core(to: &mut CoreCounts, more: &CoreCounts)
    requires { core_size to.old + core_size more.now ≤ 2 ^ 63 }
    ensures { to.new ≡ core_plus to.old more.now }
{
    add_attempts(&mut to.attempts, &more.attempts);
    add_instructions(&mut to.instructions, &more.instructions);
    add_accesses(&mut to.accesses, &more.accesses);
    add_evictions(&mut to.evictions, &more.evictions);
    add_phases(&mut to.phases, &more.phases);
}

/// The numbers of all cores together, when so many events have come.
pub(crate) fn all_cores(cores: &[KeptCore], events: u64) -> CoreCounts
    requires small { All (λ c. core_size c ≤ 2 ^ 56) (map (numbers_after events) cores.now) }
    requires few { length cores.now ≤ 64 }
    ensures { result ≡ plain_all_cores (map (numbers_after events) cores.now) }
{
    let mut total = CoreCounts::nothing();
    for core in cores {
        add_core(&mut total, &core.numbers(events));
    }
    total
}

#[tactic(auto, unfolding(crate::specs::Totals::messages_plus, crate::specs::Sizes::messages_size))]
fn add_messages(to: &mut MessageCounts, more: &MessageCounts)
    requires { messages_size to.old + messages_size more.now ≤ 2 ^ 63 }
    ensures { to.new ≡ messages_plus to.old more.now }
{
    to.sent += more.sent;
    to.took += more.took;
    to.dropped += more.dropped;
    to.asked += more.asked;
}

/// The numbers of all kinds of message together.
pub(crate) fn all_messages(messages: &[MessageCounts; 15]) -> MessageCounts
    requires { All (λ m. messages_size m ≤ 2 ^ 56) messages.now }
    ensures { result ≡ plain_all_messages messages.now }
{
    let mut total = MessageCounts::nothing();
    for kind in messages {
        add_messages(&mut total, kind);
    }
    total
}
