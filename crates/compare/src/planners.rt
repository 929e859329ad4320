//! The kit's planner against the second planner.
use crate::bench::Bench;
use crate::dice::Dice;
use crate::grid::Grid;
use crate::score::Score;
use bounded::Bounded;
use rules::{LinkRule, NodeRule};
use schedule::{ClashRule, Verdict, check, plan};

/// Whether the kit's planner gives the second planner's slots for the first `count` items, and the
/// kit's checker accepts them.
pub fn agree<C: ClashRule>(rule: &C, clashes: &Grid, order: &[u16], count: usize) -> bool {
    let mut slots = [9; 64];
    plan(rule, order, &mut slots).is_ok()
        && slots
            .iter()
            .zip(&clashes.plan(order))
            .take(count)
            .all(|(slot, second)| slot == second)
        && matches!(check(rule, &slots), Ok(Verdict::Accepted(_)))
}

/// So many maps and orders under the node rule.
pub fn nodes(cases: u32) -> Score {
    let mut dice = Dice::new(2026);
    let mut score = Score::default();
    for _ in 0..cases {
        let bench = Bench::draw(&mut dice, 64);
        let count = usize::from(bench.count);
        let order = dice.order(count);
        let rule = NodeRule::new(&bench.map);
        let clashes = bench.links.within_two();
        score.count(agree(&rule, &clashes, order.as_slice(), count));
    }
    score
}

// A list of up to 40 pairs, each a link of the bench; a pair may come again. Past 40 all are lost.
fn draw_pairs(dice: &mut Dice, bench: &Bench) -> Bounded<(u8, u8), 40> {
    let mut pairs = Bounded::new((0, 0));
    for _ in 0..400 {
        let (a, b) = (dice.byte(bench.count), dice.byte(bench.count));
        if bench.links.has(usize::from(a), usize::from(b)) {
            pairs.push((a, b));
        }
    }
    pairs
}

// Whether an end of one pair is an end of the other, or linked to one.
fn are_close(links: &Grid, one: (u8, u8), other: (u8, u8)) -> bool {
    [one.0, one.1].iter().any(|a| {
        [other.0, other.1]
            .iter()
            .any(|b| a == b || links.has(usize::from(*a), usize::from(*b)))
    })
}

fn pair_grid(links: &Grid, pairs: &[(u8, u8)]) -> Grid {
    let mut grid = Grid::default();
    for (i, one) in pairs.iter().enumerate() {
        for (j, other) in pairs.iter().enumerate().take(i) {
            if are_close(links, *one, *other) {
                grid.join(i, j);
            }
        }
    }
    grid
}

/// So many maps, lists of links and orders under the link rule.
pub fn links(cases: u32) -> Score {
    let mut dice = Dice::new(77);
    let mut score = Score::default();
    for _ in 0..cases {
        let bench = Bench::draw(&mut dice, 24);
        let drawn = draw_pairs(&mut dice, &bench);
        let pairs = drawn.as_slice();
        let order = dice.order(pairs.len());
        let grid = pair_grid(&bench.links, pairs);
        score.count(LinkRule::new(&bench.map, pairs).is_ok_and(|rule| agree(
            &rule,
            &grid,
            order.as_slice(),
            pairs.len(),
        )));
    }
    score
}
