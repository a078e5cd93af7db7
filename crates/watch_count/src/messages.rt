// What is counted of the messages of one kind.
ghost use Rattle.std.specs.Prelude.{◌≡◌, ◌≤◌, ◌<◌, ◌^◌, Some, None, option_map};
ghost use Rattle.tcc_msg.specs.Plain.{msg_of};
ghost use Rattle.watch.specs.Plain.{fact_of};
ghost use Rattle.watch_count.specs.Messages.{kind_place as plain_kind_place, kind_of as plain_kind_of, no_messages, messages_after};
ghost use Rattle.watch_count.specs.Sizes.{messages_size};
ghost use Rattle.watch_count.specs.Totals.{in_flight};

use tcc_msg::Msg;
use watch::Fact;

/// Messages of one kind: how many were sent, taken and dropped, and how often one asked its line's owner and stayed in flight.
#[derive(Clone, Copy, Debug, PartialEq, Eq)]
pub struct MessageCounts {
    pub sent: u64,
    pub took: u64,
    pub dropped: u64,
    pub asked: u64,
}

/// The place of a message's kind among the fifteen.
pub(crate) fn kind_place(msg: &Msg) -> usize
    ensures { result ≡ plain_kind_place (msg_of msg.now) }
{
    match msg {
        Msg::TidReq => 0,
        Msg::TidGrant { .. } => 1,
        Msg::LoadReq { .. } => 2,
        Msg::Fill { .. } => 3,
        Msg::Skip { .. } => 4,
        Msg::Probe { .. } => 5,
        Msg::ProbeReply { .. } => 6,
        Msg::Mark { .. } => 7,
        Msg::Commit { .. } => 8,
        Msg::Abort { .. } => 9,
        Msg::WriteBack { .. } => 10,
        Msg::Flush { .. } => 11,
        Msg::DataReq { .. } => 12,
        Msg::Inv { .. } => 13,
        Msg::InvAck { .. } => 14,
    }
}

/// The place of the kind of message that a fact is about.
pub(crate) fn kind_of(fact: &Fact) -> Option<usize>
    ensures { result ≡ plain_kind_of (fact_of fact.now) }
{
    match fact {
        Fact::Took(msg) => Some(kind_place(msg)),
        Fact::Dropped(msg) => Some(kind_place(msg)),
        Fact::AskedOwner(msg) => Some(kind_place(msg)),
        Fact::Sent { msg, .. } => Some(kind_place(msg)),
        _ => None,
    }
}

impl MessageCounts {
    /// No message so far.
    pub fn nothing() -> MessageCounts
        ensures { result ≡ no_messages }
    {
        MessageCounts {
            sent: 0,
            took: 0,
            dropped: 0,
            asked: 0,
        }
    }

    /// A fact about a message of this kind. No number overflows.
    #[tactic(auto, unfolding(crate::specs::Messages::messages_after, crate::specs::Sizes::messages_size))]
    pub(crate) fn count(&mut self, fact: &Fact)
        requires { messages_size self.old ≤ 2 ^ 62 }
        ensures { self.new ≡ messages_after (fact_of fact.now) self.old }
    {
        match fact {
            Fact::Took(_) => self.took += 1,
            Fact::Dropped(_) => self.dropped += 1,
            Fact::AskedOwner(_) => self.asked += 1,
            Fact::Sent { .. } => self.sent += 1,
            _ => {}
        }
    }

    /// How many were sent and not consumed.
    pub fn in_flight(&self) -> u64
        ensures { result ≡ in_flight self.now }
    {
        self.sent
            .saturating_sub(self.took)
            .saturating_sub(self.dropped)
    }
}
