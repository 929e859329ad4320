use marks::Marks;
use radio::{Kind, Message, RackQueue, Radio};
use refusal::Refusal;
use rig::{Lottery, Phase, Rig};

// A rig of the path 0–1–2–.. of so many nodes.
fn path(count: u8) -> Rig {
    let mut rig = Rig::new();
    rig.open(&benches::path(count));
    rig
}

fn grant(round: u16, sender: u8, receiver: u8, slots: Marks) -> Message {
    Message {
        slots,
        ..Message::new(Kind::Grant, round, sender, receiver)
    }
}

fn release(round: u16, sender: u8, receiver: u8, slot: u8) -> Message {
    Message {
        slot,
        ..Message::new(Kind::Release, round, sender, receiver)
    }
}

// How many of 1,000 deliveries bring a message.
fn settle(rig: &mut Rig, queue: &mut RackQueue) -> usize {
    (0..1000)
        .filter(|_| matches!(rig.deliver(queue), Ok(Some(_))))
        .count()
}

// One message to the rig.
fn post(rig: &mut Rig, x: Message) -> Result<Option<Kind>, Refusal> {
    let mut queue = RackQueue::new();
    queue.put(x);
    rig.deliver(&mut queue)
}

#[test]
fn lotteries_by_number(rt: HostRuntime) {
    for (lottery, number) in [
        (Lottery::Lost, 0),
        (Lottery::Asked, 1),
        (Lottery::Decided, 2),
    ] {
        assert_eq!(rt; u8::from(lottery), number);
    }
}

#[test]
fn a_lone_node(rt: HostRuntime) {
    let mut rig = path(1);
    let mut queue = RackQueue::new();
    assert_eq!(rt; rig.draw(0, 0, &mut queue), Ok(Lottery::Lost));
    assert_eq!(rt; rig.draw(1, 1, &mut queue), Err(Refusal::Node));
    assert_eq!(rt; rig.draw(0, 1, &mut queue), Ok(Lottery::Decided));
    assert_eq!(rt;
        (rig.slot(0), rig.turn(0), rig.round(0), rig.phase(0)),
        (Ok(1), Ok(1), Ok(1), Ok(Phase::Release))
    );
    assert_eq!(rt; rig.draw(0, 1, &mut queue), Err(Refusal::Settled));
    assert_eq!(rt; rig.nudge(0, &mut queue), Err(Refusal::Quiet));
    assert_eq!(rt; queue.take(), None);
}

#[test]
fn the_lottery_of_three(rt: HostRuntime) {
    let lost = (Lottery::Lost, Phase::Idle, 0);
    let asked = (Lottery::Asked, Phase::Request, 1);
    for (number, (answer, phase, round)) in [
        (0, lost),
        (1, asked),
        (3, lost),
        (5, lost),
        (7, asked),
        (8, lost),
        (13, asked),
        (0xffff_ffff, lost),
        (0xffff_fffd, asked),
        (0xffff_fffb, lost),
    ] {
        let mut rig = path(3);
        let mut queue = RackQueue::new();
        assert_eq!(rt; rig.draw(1, number, &mut queue), Ok(answer));
        assert_eq!(rt; (rig.phase(1), rig.round(1)), (Ok(phase), Ok(round)));
    }
}

#[test]
fn a_path_of_three(rt: HostRuntime) {
    let mut rig = path(3);
    let mut queue = RackQueue::new();
    for k in [1, 0, 2] {
        assert_eq!(rt; rig.draw(k, 1, &mut queue), Ok(Lottery::Asked));
        assert_eq!(rt; rig.draw(k, 1, &mut queue), Err(Refusal::Busy));
        let _ = settle(&mut rig, &mut queue);
    }
    let table = rig.slots();
    assert_eq!(rt;
        (table[0], table[1], table[2], table[3], table[63]),
        (2, 1, 3, 0, 0)
    );
    assert_eq!(rt;
        (rig.turn(0), rig.turn(1), rig.turn(2)),
        (Ok(2), Ok(1), Ok(3))
    );
    assert_eq!(rt; rig.map().count(), 3);
    assert_eq!(rt;
        (rig.slot(3), rig.turn(3), rig.round(3), rig.phase(3)),
        (
            Err(Refusal::Node),
            Err(Refusal::Node),
            Err(Refusal::Node),
            Err(Refusal::Node)
        )
    );
}

#[test]
fn both_request(rt: HostRuntime) {
    let mut rig = path(2);
    let mut queue = RackQueue::new();
    assert_eq!(rt; rig.draw(0, 1, &mut queue), Ok(Lottery::Asked));
    assert_eq!(rt; rig.draw(1, 1, &mut queue), Ok(Lottery::Asked));
    assert_eq!(rt; settle(&mut rig, &mut queue), 6);
    assert_eq!(rt;
        (rig.phase(0), rig.phase(1)),
        (Ok(Phase::Idle), Ok(Phase::Idle))
    );
}

#[test]
fn a_late_grant(rt: HostRuntime) {
    let mut rig = path(2);
    let mut queue = RackQueue::new();
    assert_eq!(rt; rig.draw(0, 1, &mut queue), Ok(Lottery::Asked));
    assert_eq!(rt;
        post(&mut rig, Message::new(Kind::Reject, 1, 1, 0)),
        Ok(Some(Kind::Reject))
    );
    assert_eq!(rt; rig.draw(0, 1, &mut queue), Ok(Lottery::Asked));
    assert_eq!(rt; queue.take(), Some(Message::new(Kind::Request, 1, 0, 1)));
    assert_eq!(rt; queue.take(), Some(Message::new(Kind::Request, 2, 0, 1)));
    queue.put(grant(1, 1, 0, Marks::empty()));
    assert_eq!(rt; rig.deliver(&mut queue), Ok(Some(Kind::Grant)));
    assert_eq!(rt; (rig.phase(0), rig.slot(0)), (Ok(Phase::Request), Ok(0)));
    assert_eq!(rt; queue.take(), Some(Message::new(Kind::Fail, 1, 0, 1)));
    assert_eq!(rt; queue.take(), None);
    queue.put(grant(2, 1, 0, Marks::empty().with(0)));
    assert_eq!(rt; rig.deliver(&mut queue), Ok(Some(Kind::Grant)));
    assert_eq!(rt; (rig.phase(0), rig.slot(0)), (Ok(Phase::Release), Ok(2)));
    assert_eq!(rt; queue.take(), Some(release(2, 0, 1, 2)));
    assert_eq!(rt; queue.take(), None);
    queue.put(grant(2, 1, 0, Marks::empty()));
    queue.put(grant(1, 1, 0, Marks::empty()));
    assert_eq!(rt; rig.deliver(&mut queue), Ok(Some(Kind::Grant)));
    assert_eq!(rt; rig.deliver(&mut queue), Ok(Some(Kind::Grant)));
    assert_eq!(rt; queue.take(), Some(release(2, 0, 1, 2)));
    assert_eq!(rt; queue.take(), Some(Message::new(Kind::Fail, 1, 0, 1)));
}

#[test]
fn requests_grants_and_nudges(rt: HostRuntime) {
    let mut rig = path(3);
    let mut queue = RackQueue::new();
    assert_eq!(rt; rig.nudge(1, &mut queue), Err(Refusal::Quiet));
    assert_eq!(rt; rig.nudge(3, &mut queue), Err(Refusal::Node));
    assert_eq!(rt;
        post(&mut rig, release(9, 2, 1, 5)),
        Ok(Some(Kind::Release))
    );
    for (round, sender) in [(7, 0), (7, 0), (8, 0), (7, 2)] {
        queue.put(Message::new(Kind::Request, round, sender, 1));
    }
    for _ in 0..4 {
        assert_eq!(rt; rig.deliver(&mut queue), Ok(Some(Kind::Request)));
    }
    let granted = grant(7, 1, 0, Marks::empty().with(4));
    assert_eq!(rt; queue.take(), Some(granted));
    assert_eq!(rt; queue.take(), Some(granted));
    assert_eq!(rt; queue.take(), Some(Message::new(Kind::Reject, 8, 1, 0)));
    assert_eq!(rt; queue.take(), Some(Message::new(Kind::Reject, 7, 1, 2)));
    assert_eq!(rt; rig.nudge(1, &mut queue), Ok(1));
    assert_eq!(rt; queue.take(), Some(granted));
    for (round, sender, phase) in [
        (8, 0, Phase::Grant),
        (7, 2, Phase::Grant),
        (7, 0, Phase::Idle),
    ] {
        let fail = Message::new(Kind::Fail, round, sender, 1);
        assert_eq!(rt;
            (post(&mut rig, fail), rig.phase(1)),
            (Ok(Some(Kind::Fail)), Ok(phase))
        );
    }
    assert_eq!(rt; rig.draw(1, 1, &mut queue), Ok(Lottery::Asked));
    assert_eq!(rt; queue.take(), Some(Message::new(Kind::Request, 1, 1, 0)));
    assert_eq!(rt; queue.take(), Some(Message::new(Kind::Request, 1, 1, 2)));
    assert_eq!(rt;
        post(&mut rig, grant(1, 0, 1, Marks::empty())),
        Ok(Some(Kind::Grant))
    );
    assert_eq!(rt; rig.nudge(1, &mut queue), Ok(1));
    assert_eq!(rt; queue.take(), Some(Message::new(Kind::Request, 1, 1, 2)));
    assert_eq!(rt; queue.take(), None);
}

#[test]
fn foreign_messages(rt: HostRuntime) {
    let mut rig = path(3);
    for x in [
        Message {
            kind: 0,
            ..release(1, 0, 1, 1)
        },
        Message {
            kind: 6,
            ..release(1, 0, 1, 1)
        },
        Message {
            kind: 255,
            ..release(1, 0, 1, 1)
        },
        Message::new(Kind::Request, 1, 0, 2),
        Message::new(Kind::Request, 1, 1, 1),
        Message::new(Kind::Request, 1, 2, 3),
        Message::new(Kind::Request, 1, 255, 1),
        release(1, 0, 1, 0),
        release(1, 0, 1, 65),
        release(1, 0, 1, 255),
    ] {
        let mut queue = RackQueue::new();
        queue.put(x);
        assert_eq!(rt; rig.deliver(&mut queue), Err(Refusal::Foreign));
        assert_eq!(rt; rig.deliver(&mut queue), Ok(None));
        assert_eq!(rt; rig.phase(1), Ok(Phase::Idle));
        assert_eq!(rt; rig.nudge(1, &mut queue), Err(Refusal::Quiet));
    }
    assert_eq!(rt;
        post(&mut rig, Message::new(Kind::Fail, 1, 0, 1)),
        Ok(Some(Kind::Fail))
    );
    assert_eq!(rt;
        post(&mut rig, release(1, 0, 1, 1)),
        Ok(Some(Kind::Release))
    );
    assert_eq!(rt;
        post(&mut rig, release(1, 0, 1, 64)),
        Ok(Some(Kind::Release))
    );
    let mut queue = RackQueue::new();
    queue.put(Message::new(Kind::Request, 1, 0, 1));
    assert_eq!(rt; rig.deliver(&mut queue), Ok(Some(Kind::Request)));
    assert_eq!(rt;
        queue.take(),
        Some(grant(1, 1, 0, Marks::empty().with(0).with(63)))
    );
}

#[test]
fn all_slots_taken(rt: HostRuntime) {
    let all = (0..64).fold(Marks::empty(), |marks, i| marks.with(i));
    let mut rig = path(2);
    let mut queue = RackQueue::new();
    assert_eq!(rt; rig.draw(0, 1, &mut queue), Ok(Lottery::Asked));
    assert_eq!(rt; queue.take(), Some(Message::new(Kind::Request, 1, 0, 1)));
    queue.put(grant(1, 1, 0, all));
    assert_eq!(rt; rig.deliver(&mut queue), Ok(Some(Kind::Grant)));
    assert_eq!(rt;
        (rig.phase(0), rig.slot(0), rig.turn(0)),
        (Ok(Phase::Idle), Ok(0), Ok(0))
    );
    assert_eq!(rt; queue.take(), Some(Message::new(Kind::Fail, 1, 0, 1)));
    assert_eq!(rt; queue.take(), None);
    assert_eq!(rt; rig.draw(0, 1, &mut queue), Ok(Lottery::Asked));
    assert_eq!(rt;
        post(&mut rig, grant(2, 1, 0, all.without(63))),
        Ok(Some(Kind::Grant))
    );
    assert_eq!(rt;
        (rig.phase(0), rig.slot(0), rig.turn(0)),
        (Ok(Phase::Release), Ok(64), Ok(1))
    );
}

// Every round but the last is rejected.
#[test]
fn the_last_round(rt: HostRuntime) {
    let mut rig = path(2);
    for round in 1..=65_534 {
        let mut queue = RackQueue::new();
        assert_eq!(rt; rig.draw(0, 1, &mut queue), Ok(Lottery::Asked));
        assert_eq!(rt;
            post(&mut rig, Message::new(Kind::Reject, round, 1, 0)),
            Ok(Some(Kind::Reject))
        );
    }
    let mut queue = RackQueue::new();
    assert_eq!(rt; rig.draw(0, 0, &mut queue), Ok(Lottery::Lost));
    assert_eq!(rt; rig.draw(0, 1, &mut queue), Ok(Lottery::Asked));
    assert_eq!(rt; rig.round(0), Ok(65_535));
    assert_eq!(rt; rig.draw(0, 1, &mut queue), Err(Refusal::Busy));
    assert_eq!(rt;
        post(&mut rig, Message::new(Kind::Reject, 65_535, 1, 0)),
        Ok(Some(Kind::Reject))
    );
    assert_eq!(rt; rig.draw(0, 1, &mut queue), Err(Refusal::Spent));
    assert_eq!(rt; rig.draw(0, 0, &mut queue), Err(Refusal::Spent));
    assert_eq!(rt; (rig.round(0), rig.phase(0)), (Ok(65_535), Ok(Phase::Idle)));
}
