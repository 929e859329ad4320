//! The link rule, for messages from one node to another.
ghost use Rattle.std.specs.Prelude.{◌≤◌, length};

use map::Map;

pub(crate) mod making;

/// The items are the places of a list of node pairs, each a link of the map. Two different places
/// clash when an end of one pair is an end of the other or a neighbour of one.
#[derive(Clone, Copy)]
pub struct LinkRule<'a> {
    map: &'a Map,
    pairs: &'a [(u8, u8)],
    ghost few: { length pairs.now ≤ 512 },
}
