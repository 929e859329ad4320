//! Opening a rig.
ghost use Rattle.std.specs.Prelude.{◌≡◌};
ghost use Rattle.map.specs.Calls.{bare};
ghost use Rattle.map.specs.View.{net};
ghost use Rattle.rig.specs.Board.{new_board};
ghost use Rattle.rig.specs.Calm.{blank};

use crate::{Node, Phase, Rig};
use map::Map;
use marks::Marks;

// A node as it is in a new rig.
fn blank_node() -> Node
    ensures { result ≡ blank }
{
    Node {
        phase: Phase::Idle,
        slot: 0,
        turn: 0,
        round: 0,
        dated: 0,
        granted: Marks::empty(),
        taken: Marks::empty(),
        heard: Marks::empty(),
        holder: 0,
        term: 0,
    }
}

impl Rig {
    // A rig of this map, in which nothing is done.
    fn over(map: Map) -> Rig
        ensures map { result.map ≡ map }
        ensures nodes { result.nodes ≡ new_board }
    {
        Rig {
            map,
            nodes: [blank_node(); 64],
        }
    }

    /// The smallest rig: one node, no link, nothing done.
    pub fn new() -> Rig
        ensures map { net result.map ≡ bare 1 }
        ensures nodes { result.nodes ≡ new_board }
    {
        Rig::over(Map::new())
    }

    /// Fills this rig with a copy of the map, and nothing done.
    pub fn open(&mut self, map: &Map)
        ensures map { self.new.map ≡ map.now }
        ensures nodes { self.new.nodes ≡ new_board }
    {
        *self = Rig::over(*map);
    }
}
