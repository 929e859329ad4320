//! The maps of the examples.
ghost use Rattle.facts.specs.Examples.{OpeningsAtTheLimit};

use crate::outcomes::Openings;
use map::Map;

// Opening with as many nodes as a map can have, and with one more.
pub(crate) fn opened() -> Openings
    ensures { OpeningsAtTheLimit result }
{
    let mut map = Map::new();
    Openings {
        most: map.open(64),
        more: map.open(65),
    }
}
