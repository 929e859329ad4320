use benches::path;
use law::{Answer, Call};
use radio::{CoinRadio, Kind, RackQueue};
use refusal::Refusal;
use rig::{Lottery, Rig};
use runs::{audit, perform};
use schedule::Verdict;
use std::array;
use std::test::Fail;

#[test]
fn refusals_are_part_of_a_run(rt: HostRuntime) -> Result<(), Fail> {
    let calls = [
        Call::Draw(2, 1),
        Call::Nudge(0),
        Call::Draw(0, 2),
        Call::Draw(0, 1),
        Call::Draw(0, 1),
        Call::Nudge(0),
        Call::Deliver,
        Call::Deliver,
        Call::Deliver,
        Call::Deliver,
        Call::Draw(0, 1),
        Call::Deliver,
        Call::Deliver,
        Call::Deliver,
    ];
    let mut queue = RackQueue::new();
    let mut answers = [Answer::Nudged(Ok(77)); 15];
    let mut order = [99; 15];
    let done = perform(&path(2), &mut queue, &calls, &mut answers, &mut order)?;
    assert_eq!(rt;
        answers,
        [
            Answer::Drawn(Err(Refusal::Node)),
            Answer::Nudged(Err(Refusal::Quiet)),
            Answer::Drawn(Ok(Lottery::Lost)),
            Answer::Drawn(Ok(Lottery::Asked)),
            Answer::Drawn(Err(Refusal::Busy)),
            Answer::Nudged(Ok(1)),
            Answer::Delivered(Ok(Some(Kind::Request))),
            Answer::Delivered(Ok(Some(Kind::Request))),
            Answer::Delivered(Ok(Some(Kind::Grant))),
            Answer::Delivered(Ok(Some(Kind::Grant))),
            Answer::Drawn(Err(Refusal::Settled)),
            Answer::Delivered(Ok(Some(Kind::Release))),
            Answer::Delivered(Ok(Some(Kind::Release))),
            Answer::Delivered(Ok(None)),
            Answer::Nudged(Ok(77)),
        ]
    );
    assert_eq!(rt; (done.decided, order[0], order[1]), (1, 0, 99));
    assert_eq!(rt; audit(&done.rig, &queue), Ok(Verdict::Accepted(1)));
    Ok(())
}

// Node after node is drawn and nudged, over a radio that loses, repeats and reorders, until all have decided.
#[test]
fn a_path_over_the_coin_radio(rt: HostRuntime) -> Result<(), Fail> {
    let calls: [Call; 2400] = array::from_fn(|i| {
        // A cast: it loses nothing, and `try_from` would bring an error that never comes.
        let k = (i / 10 % 6) as u8;
        match i % 10 {
            0 => Call::Draw(k, 1),
            1 => Call::Nudge(k),
            _ => Call::Deliver,
        }
    });
    let mut radio = CoinRadio::new(7);
    let mut answers = [Answer::Nudged(Ok(0)); 2400];
    let mut order = [0; 2400];
    let done = perform(&path(6), &mut radio, &calls, &mut answers, &mut order)?;
    assert_eq!(rt; done.decided, 6);
    assert!(rt; matches!(audit(&done.rig, &radio), Ok(Verdict::Accepted(slot)) if slot <= 5));
    Ok(())
}

// Tables shorter than the calls are refused, and nothing is called; no calls need no table.
#[test]
fn short_tables(rt: HostRuntime) {
    let calls = [Call::Draw(0, 1), Call::Deliver];
    let mut queue = RackQueue::new();
    let mut answers = [Answer::Nudged(Ok(5)); 2];
    let mut order = [9; 2];
    let few = perform(&path(2), &mut queue, &calls, &mut answers[0..1], &mut order);
    assert_eq!(rt; few.err(), Some(Refusal::Short));
    let few = perform(&path(2), &mut queue, &calls, &mut answers, &mut order[0..1]);
    assert_eq!(rt; few.err(), Some(Refusal::Short));
    let none = perform(&path(2), &mut queue, &calls, &mut [], &mut []);
    assert_eq!(rt; none.err(), Some(Refusal::Short));
    assert_eq!(rt; (answers, order), ([Answer::Nudged(Ok(5)); 2], [9, 9]));
    let mut rig = Rig::new();
    rig.open(&path(2));
    assert_eq!(rt; rig.deliver(&mut queue), Ok(None));
    let done = perform(&path(3), &mut queue, &[], &mut [], &mut []);
    assert!(rt; done.is_ok_and(|done| done.decided == 0));
}
