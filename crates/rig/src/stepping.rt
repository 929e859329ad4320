//! What a node is asked, and what is altered of it.
ghost use Rattle.std.specs.Prelude.{◌≡◌, ◌<◌, cond};
ghost use Rattle.rig.specs.Steps.{counted, freed, grant, hearing, offered, serves, waits};

use crate::{Node, Phase};
use marks::Marks;
use radio::{Kind, Message};

impl Node {
    /// Whether it is in request, and the round is its own.
    pub(crate) fn waits_in(self, round: u16) -> bool
        ensures { result ≡ waits self round }
    {
        self.phase == Phase::Request && round == self.round
    }

    /// Whether it is in grant for just the message's sender and round.
    pub(crate) fn serves(self, x: Message) -> bool
        ensures { result ≡ serves self x.sender x.round }
    {
        self.phase == Phase::Grant && self.holder == x.sender && self.term == x.round
    }

    /// The slots that its grant holds: those heard, and its own if it has one.
    #[tactic(auto, unfolding(crate::specs::Steps::offered))]
    fn offer(self) -> Marks
        ensures { result ≡ offered self }
    {
        if self.slot == 0 {
            self.heard
        } else {
            self.heard.with(self.slot - 1)
        }
    }

    /// Its grant, in a round of the receiver's.
    pub(crate) fn grant(self, round: u16, sender: u8, receiver: u8) -> Message
        ensures { result ≡ grant (offered self) round sender receiver }
    {
        Message {
            slots: self.offer(),
            ..Message::new(Kind::Grant, round, sender, receiver)
        }
    }

    /// The message's sender has granted.
    pub(crate) fn counted(self, x: Message) -> Node
        ensures { result ≡ counted self x.sender x.slots }
    {
        Node {
            granted: self.granted.with(x.sender),
            taken: self.taken.union(x.slots),
            ..self
        }
    }

    /// The slot is heard.
    pub(crate) fn hearing(self, slot: u8) -> Node
        requires { 0 < slot }
        ensures { result ≡ hearing self slot }
    {
        Node {
            heard: self.heard.with(slot - 1),
            ..self
        }
    }

    /// Freed, if it is in grant for just the message's sender and round.
    pub(crate) fn freed_by(self, x: Message) -> Node
        ensures { result ≡ cond (serves self x.sender x.round) (freed self) self }
    {
        if !self.serves(x) {
            return self;
        }
        let phase = if self.slot == 0 {
            Phase::Idle
        } else {
            Phase::Release
        };
        Node { phase, ..self }
    }
}
