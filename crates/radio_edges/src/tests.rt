ghost use Rattle.std.specs.Prelude.{[], None};
ghost use Rattle.radio.specs.Ways.{Ways};
ghost use Rattle.std.proofs.Common.{rules};

use radio::{CoinRadio, Kind, Message, RackQueue, Radio, UnknownKind, put_all, step};

// A message that is told from others by its round.
fn numbered(round: u16) -> Message {
    Message::new(Kind::Request, round, 0, 1)
}

// Puts in the messages numbered from 1 to `last`.
fn fill<R: Radio>(radio: &mut R, last: u16) {
    for round in 1..=last {
        radio.put(numbered(round));
    }
}

// How often a message comes, of 1,000 times.
fn drain<R: Radio>(radio: &mut R) -> usize {
    (0..1000).filter(|_| radio.take().is_some()).count()
}

// A radio that loses everything, which the air rule admits.
#[derive(Drop)]
struct DeafRadio;

impl Radio for DeafRadio {
    ghost State = { Unit {0} };

    ghost state = { λ _. tt };

    ghost ways = { record { after_put = λ s m. s; after_take = λ s. s; taken = λ s. None; air = λ s. [] } };

    ghost put_air = { Prim.search rules };

    ghost take_air = { Prim.search rules };

    ghost taken_air = { Prim.search rules };

    fn put(&mut self, _message: Message) {}

    fn take(&mut self) -> Option<Message> {
        None
    }
}

#[test]
fn the_queue(rt: HostRuntime) {
    let mut queue = RackQueue::new();
    assert_eq!(rt; queue.take(), None);
    put_all(&mut queue, &[7, 9, 8].map(numbered));
    assert_eq!(rt; queue.take(), Some(numbered(7)));
    queue.put(numbered(7));
    for round in [9, 8, 7] {
        assert_eq!(rt; queue.take(), Some(numbered(round)));
    }
    assert_eq!(rt; queue.take(), None);
    for (last, left) in [(255, 255), (256, 256), (257, 256)] {
        let mut queue = RackQueue::new();
        fill(&mut queue, last);
        assert_eq!(rt; queue.take(), Some(numbered(1)));
        assert_eq!(rt; drain(&mut queue), left - 1);
    }
}

#[test]
fn the_generator(rt: HostRuntime) {
    assert_eq!(rt; step(1), 270_369);
    assert_eq!(rt; step(270_369), 67_634_689);
    assert_eq!(rt; step(0), 0);
    assert_eq!(rt; step(0xffff_ffff), 253_983);
}

// What comes was computed by another program. Message 6 is lost, and 5 stays once.
#[test]
fn the_coin_radio(rt: HostRuntime) {
    let mut coin = CoinRadio::new(0);
    assert_eq!(rt; coin.take(), None);
    fill(&mut coin, 12);
    for round in [5, 1, 12, 9, 2, 3, 8, 7, 11, 10, 5, 4] {
        assert_eq!(rt; coin.take(), Some(numbered(round)));
    }
    for _ in 0..2 {
        assert_eq!(rt; coin.take(), None);
    }
    let mut full = CoinRadio::new(5);
    fill(&mut full, 300);
    for round in [60, 150, 119, 235, 104, 118] {
        assert_eq!(rt; full.take(), Some(numbered(round)));
    }
}

#[test]
fn a_deaf_radio(rt: HostRuntime) {
    let mut deaf = DeafRadio;
    fill(&mut deaf, 3);
    assert_eq!(rt; drain(&mut deaf), 0);
}

#[test]
fn kinds_by_number(rt: HostRuntime) {
    for (byte, kind) in [
        (1, Kind::Request),
        (2, Kind::Grant),
        (3, Kind::Reject),
        (4, Kind::Release),
        (5, Kind::Fail),
    ] {
        assert_eq!(rt; u8::from(kind), byte);
        assert_eq!(rt; Kind::try_from(byte), Ok(kind));
    }
    for byte in [0, 6, 255] {
        assert_eq!(rt; Kind::try_from(byte), Err(UnknownKind(byte)));
    }
}

#[test]
fn a_reply(rt: HostRuntime) {
    let message = Message::new(Kind::Request, 7, 2, 3);
    assert_eq!(rt;
        message.reply(Kind::Reject),
        Message::new(Kind::Reject, 7, 3, 2)
    );
}
