// What a number picks at a node.
ghost use Rattle.std.specs.Prelude.{◌≡◌, ◌%◌, ◌^◌, ◌<◌};
ghost use Rattle.rules_maps.specs.Bridge.{node_of};
ghost use Rattle.apart_member.specs.Always.{IsOfKind};
ghost use Rattle.apart_member.specs.Data.{state_of};
ghost use Rattle.apart_node.specs.Drawn.{IsDrawn};

use crate::room::{Mailroom, Waiting};
use apart_member::Member;

/// What was picked: nothing where there is nothing to do, one of the member's own events by its number, or a message that waits.
#[derive(Clone, Copy, Debug)]
pub(crate) enum Draw {
    Nothing,
    Own(usize),
    Letter(Waiting),
}

// The remainder of a number, mostly without a division of 128 bits.
fn remainder(pick: u32, all: u128) -> u32
    requires { 0 < all }
    ensures { result ≡ pick % all }
{
    if u128::from(pick) < all {
        return pick;
    }
    pick % (all as u32)
}

impl Mailroom {
    /// What the number picks by its remainder, of so many events of the member's own and behind them the messages that it would take now,
    /// by port and number. It takes time in the number of messages that may have to wait, and of those that wait at one port.
    pub(crate) fn draw(&mut self, member: &Member, last: u64, own: usize, pick: u32) -> Draw
        requires settings { self.old.settings ≡ member.now.code.settings }
        requires own { self.old.own ≡ member.now.node }
        requires kind { IsOfKind (node_of member.now.node) (state_of member.now) }
        requires early { last < 2 ^ 62 }
        ensures drawn { IsDrawn self.old member.now last own pick result }
        ensures same { self.new ≡ self.old }
    {
        self.tally.recount(&self.ports, member, last);
        let all = own as u128 + u128::from(self.tally.total());
        if all == 0 {
            return Draw::Nothing;
        }
        let k = remainder(pick, all) as usize;
        if k < own {
            return Draw::Own(k);
        }
        let Some((seat, into)) = self.tally.find((k - own) as u64) else {
            unreachable!()
        };
        let port = &self.ports[seat];
        let Ok(letter) = port.ready_at(member, last, into as usize) else {
            unreachable!()
        };
        Draw::Letter(Waiting {
            seat,
            src: port.peer(),
            letter,
        })
    }
}
