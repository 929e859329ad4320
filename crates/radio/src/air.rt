//! Space for 256 messages that wait, the oldest first.
ghost use Rattle.std.specs.Prelude.{◌≡◌, []};
ghost use Rattle.radio.specs.Waiting.{waiting};

use crate::Message;
use bounded::Bounded;
use marks::Marks;

/// How many messages can wait.
const SPACE: usize = 256;

/// Messages that wait. One that is put into a full air is lost.
pub(crate) type Air = Bounded<Message, SPACE>;

/// Nothing waits.
pub(crate) fn empty() -> Air
    ensures { waiting result ≡ [] }
{
    // No `Kind`: it fills the places in which nothing waits.
    let blank = Message {
        kind: 0,
        sender: 0,
        receiver: 0,
        round: 0,
        slot: 0,
        slots: Marks::empty(),
    };
    Bounded::new(blank)
}
