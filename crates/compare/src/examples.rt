//! Worked examples of maps and rigs.
use crate::score::Score;
use map::Map;
use radio::{Kind, Message, RackQueue, Radio};
use refusal::Refusal;
use rig::{Lottery, Rig};

/// 1 and 64 nodes open; 0 and 65 are refused by 2.
pub fn openings() -> Score {
    let mut score = Score::default();
    for count in [1, 64] {
        score.count(Map::new().open(count).is_ok());
    }
    for count in [0, 65] {
        score.count(matches!(Map::new().open(count), Err(Refusal::Count)));
    }
    score
}

/// Every round up to 65,535 is reached by a draw and given up by a reject; then a draw is refused
/// by 10.
pub fn rounds() -> Score {
    let mut score = Score::default();
    let mut map = Map::new();
    let _ = map.open(2);
    let _ = map.link(0, 1);
    let mut rig = Rig::new();
    rig.open(&map);
    for round in 1..=65_535 {
        let drawn = rig.draw(0, 1, &mut RackQueue::new());
        score.count(
            matches!(drawn, Ok(Lottery::Asked)) && rig.round(0).is_ok_and(|told| told == round),
        );
        let mut air = RackQueue::new();
        air.put(Message::new(Kind::Reject, round, 1, 0));
        let _ = rig.deliver(&mut air);
    }
    let drawn = rig.draw(0, 1, &mut RackQueue::new());
    score.count(matches!(drawn, Err(Refusal::Spent)));
    score
}
