//! The rack queue as a radio.
ghost use Rattle.std.specs.Prelude.{◌≡◌, List, []};
ghost use Rattle.radio.specs.Queue.{queue_ways};
ghost use Rattle.radio.specs.Waiting.{waiting};
ghost use Rattle.radio.specs.declared.message.Message.{Message};
ghost use Rattle.radio.specs.Places.{entered_in, removed_in, nth_in};

use super::RackQueue;
use crate::{Message, Radio, air};

impl RackQueue {
    /// A queue in which nothing waits.
    pub fn new() -> RackQueue
        ensures { waiting result.air ≡ [] }
    {
        RackQueue { air: air::empty() }
    }
}

impl Radio for RackQueue {
    ghost State = { List Message };

    ghost state = { λ q. waiting q.air };

    ghost ways = { queue_ways };

    ghost put_air = { entered_in };

    ghost take_air = { λ s x. removed_in s 0 x };

    ghost taken_air = { λ s x. nth_in s 0 x };

    fn put(&mut self, message: Message) {
        self.air.push(message);
    }

    fn take(&mut self) -> Option<Message> {
        let oldest = self.air.get(0);
        self.air.remove(0);
        oldest
    }
}
