//! The event or the seed of a record, whatever its place in a job.
ghost use Rattle.std.specs.Prelude.{◌≡◌, if◌then◌else◌, Some, None};
ghost use Rattle.records.specs.Fields.{number_of, taken};
ghost use Rattle.script.specs.Script.{event_of, seeds};

use crate::Event;
use records::Record;

/// How often an M record can ask for a delivery.
pub const MOST_DELIVERIES: u32 = 4096;

impl Event {
    /// The event that a D, M or R record stands for.
    ///
    /// `None` if the bytes are no such record: eight bytes, those that the letter does not use 0, and
    /// the number of M from 1 to 4,096. Any node will do: it is for the rig to refuse one.
    pub fn from_record(bytes: &[u8]) -> Option<Event>
        ensures { result ≡ event_of (taken bytes.now) }
    {
        let Record {
            letter,
            first,
            second,
            number,
        } = Record::take_apart(bytes)?;
        match (char::from(letter), first, second, number) {
            ('D', node, 0, number) => Some(Event::Draw(node, number)),
            ('M', 0, 0, most @ 1..=MOST_DELIVERIES) => Some(Event::Deliver(most)),
            ('R', node, 0, 0) => Some(Event::Nudge(node)),
            _ => None,
        }
    }
}

/// The seed that a C record gives, which may be 0, or `None` if the bytes are no such record.
pub(crate) fn seed(bytes: &[u8]) -> Option<u32>
    ensures { result ≡ (if seeds (taken bytes.now) then Some (number_of bytes.now) else None) }
{
    let record = Record::take_apart(bytes)?;
    match (char::from(record.letter), record.first, record.second) {
        ('C', 0, 0) => Some(record.number),
        _ => None,
    }
}
