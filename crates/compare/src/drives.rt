//! The drive against the planners.
use crate::bench::Bench;
use crate::dice::Dice;
use crate::score::Score;
use bounded::Bounded;
use drive::drive;
use rules::NodeRule;
use schedule::{ClashRule, plan};
use std::array;

// Whether the slots of a drive in this order are both planners', with six deliveries for each link.
fn agrees(bench: &Bench, nodes: &[u8]) -> bool {
    let mut order: Bounded<u16, 64> = Bounded::new(0);
    for node in nodes {
        order.push(u16::from(*node));
    }
    let mut planned = [0; 64];
    let planner = plan(&NodeRule::new(&bench.map), order.as_slice(), &mut planned);
    let second = bench.links.within_two().plan(order.as_slice());
    let mut driven = [0; 64];
    planner.is_ok()
        && drive(&bench.map, nodes, &mut driven).is_ok_and(|deliveries| deliveries
            == 6 * u32::from(bench.map.links()))
        && driven == planned
        && driven == second
}

/// So many maps, each driven in an order of all its nodes.
pub fn drives(cases: u32) -> Score {
    let mut dice = Dice::new(512);
    let mut score = Score::default();
    for _ in 0..cases {
        let bench = Bench::draw(&mut dice, 48);
        let count = usize::from(bench.count).min(64);
        // A cast: `u8::try_from` would bring an error that never comes.
        let mut nodes: [u8; 64] = array::from_fn(|i| i as u8);
        dice.shuffle(&mut nodes[..count]);
        score.count(agrees(&bench, &nodes[..count]));
    }
    score
}
