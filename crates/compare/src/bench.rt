//! Maps drawn from a generator, for the kit and for the second planner.
use crate::dice::Dice;
use crate::grid::Grid;
use map::Map;

/// A map, and the same links in a grid, with the count of nodes that was drawn.
#[derive(Drop)]
pub struct Bench {
    pub map: Map,
    pub links: Grid,
    pub count: u8,
}

impl Bench {
    /// A bench of at least one node and at most `most`, with up to three links for each node.
    pub fn draw(dice: &mut Dice, most: u8) -> Bench {
        let count = dice.byte(most).saturating_add(1).min(64);
        let mut map = Map::new();
        let _ = map.open(count);
        let mut links = Grid::default();
        for _ in 0..dice.below(usize::from(count) * 3) {
            let (a, b) = (dice.byte(count), dice.byte(count));
            if map.link(a, b).is_ok() {
                links.join(usize::from(a), usize::from(b));
            }
        }
        Bench { map, links, count }
    }
}
