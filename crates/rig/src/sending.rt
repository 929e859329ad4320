//! Sending to a node's neighbours.
ghost use Rattle.std.specs.Prelude.{◌≡◌, length};
ghost use Rattle.map.specs.View.{linked, nodes};
ghost use Rattle.radio.specs.Ways.{puts};
ghost use Rattle.rig.specs.Board.{each};
ghost use Rattle.rig.specs.Steps.{addressed, lacks};

use map::Map;
use marks::Marks;
use radio::{Message, Radio};

/// Sends a message to each neighbour of its sender but those marked, by rising number; how many. The
/// message's own receiver is not looked at.
pub(crate) fn send_to_rest<R: Radio>(radio: &mut R, map: &Map, message: Message, but: Marks) -> u8
    ensures radio { R.state radio.new ≡ puts R.ways (R.state radio.old) (each (lacks map.now but message.sender) (addressed message) (nodes map.now)) }
    ensures value { result ≡ length (each (lacks map.now but message.sender) (addressed message) (nodes map.now)) }
{
    // A loop that counts, since a chain's closure that changes the radio leaves nothing known of it.
    let mut sent = 0;
    for receiver in 0..map.count() {
        if map.linked(message.sender, receiver) && !but.has(receiver) {
            radio.put(Message {
                receiver,
                ..message
            });
            sent += 1;
        }
    }
    sent
}

/// Sends a message to each neighbour of its sender, by rising number. The message's own receiver is
/// not looked at.
pub(crate) fn send_to_all<R: Radio>(radio: &mut R, map: &Map, message: Message)
    ensures { R.state radio.new ≡ puts R.ways (R.state radio.old) (each (linked map.now message.sender) (addressed message) (nodes map.now)) }
{
    let _ = send_to_rest(radio, map, message, Marks::empty());
}
