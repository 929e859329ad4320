//! Runs of a rig over the coin radio against RAND on the turns.
use crate::bench::Bench;
use crate::dice::Dice;
use crate::score::Score;
use bounded::Bounded;
use radio::CoinRadio;
use rig::Rig;

// The decided nodes by their turns. Where a turn is skipped or comes twice, a place holds another node.
fn order_of(rig: &Rig, count: u8) -> Bounded<u16, 64> {
    let mut turns = [0u16; 64];
    let mut decided = 0usize;
    for k in 0..count {
        if let Ok(turn @ 1..=64) = rig.turn(k) {
            turns[usize::from(turn) - 1] = u16::from(k);
            decided = decided.saturating_add(1);
        }
    }
    let mut order = Bounded::new(0);
    order.extend_from_slice(&turns[..decided.min(64)]);
    order
}

// A run of draws, deliveries and nudges on a bench.
fn run(dice: &mut Dice, bench: &Bench) -> Rig {
    let mut rig = Rig::new();
    rig.open(&bench.map);
    let mut radio = CoinRadio::new(dice.word());
    for _ in 0..600 {
        let _ = rig.draw(dice.byte(bench.count), 1, &mut radio);
        for _ in 0..dice.below(6) {
            let _ = rig.deliver(&mut radio);
        }
        let _ = rig.nudge(dice.byte(bench.count), &mut radio);
    }
    rig
}

/// So many maps, each with a run: the slots are the second planner's for the nodes in the order of
/// their turns.
pub fn runs(cases: u32) -> Score {
    let mut dice = Dice::new(4096);
    let mut score = Score::default();
    for _ in 0..cases {
        let bench = Bench::draw(&mut dice, 20);
        let rig = run(&mut dice, &bench);
        let order = order_of(&rig, bench.count);
        let second = bench.links.within_two().plan(order.as_slice());
        score.count(rig.slots() == second);
    }
    score
}
