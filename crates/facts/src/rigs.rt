//! Examples of draws and deliveries.
ghost use Rattle.std.specs.Prelude.{◌≡◌, Ok, max, min};
ghost use Rattle.map.specs.View.{net};
ghost use Rattle.rig.specs.Board.{new_board, put};
ghost use Rattle.rig.specs.Calm.{blank};
ghost use Rattle.rig.specs.Steps.{asking};
ghost use Rattle.facts.specs.Examples.{BothRequest, LateGrant, LoneNode, LotteryOfThree, lottery};
ghost use Rattle.benches.specs.Paths.{path as path_of};

use crate::outcomes::{Both, Draws, Late, Lone};
use benches::path;
use marks::Marks;
use radio::{Kind, Message, RackQueue, Radio};
use refusal::Refusal;
use rig::{Lottery, Rig};

// A new rig on the path 0–1–2–.. of so many nodes.
fn rig_on_path(count: u8) -> Rig
    ensures map { net result.map ≡ path_of (max 1 (min count 64)) }
    ensures nodes { result.nodes ≡ new_board }
{
    let mut rig = Rig::new();
    rig.open(&path(count));
    rig
}

// A lone node draws with 1.
pub(crate) fn lone_node() -> Lone
    ensures { LoneNode result }
{
    let mut rig = rig_on_path(1);
    let mut queue = RackQueue::new();
    let answer = rig.draw(0, 1, &mut queue);
    let slot = rig.slot(0);
    let turn = rig.turn(0);
    Lone {
        answer,
        slot,
        turn,
        rig,
        queue,
    }
}

// Node 0 of the path 0–1–2 draws, in a new rig.
fn draw_with(number: u32) -> Result<Lottery, Refusal>
    ensures { result ≡ Ok (lottery number) }
{
    let mut rig = rig_on_path(3);
    let mut queue = RackQueue::new();
    rig.draw(0, number, &mut queue)
}

// The lottery of a node with two contenders.
pub(crate) fn three_contend() -> Draws
    ensures { LotteryOfThree result }
{
    let contenders = path(3).contenders(0).len();
    Draws {
        contenders,
        answers: [0, 1, 3, 7, 8].map(draw_with),
    }
}

// Nodes 0 and 1 are linked; node 0 asked, was rejected and asked again.
fn in_round_two() -> Rig
    ensures map { net result.map ≡ path_of 2 }
    ensures nodes { result.nodes ≡ put new_board 0 (asking (asking blank)) }
{
    let mut rig = rig_on_path(2);
    let mut queue = RackQueue::new();
    let _ = rig.draw(0, 1, &mut queue);
    let mut answer = RackQueue::new();
    answer.put(Message::new(Kind::Reject, 1, 1, 0));
    let _ = rig.deliver(&mut answer);
    let _ = rig.draw(0, 1, &mut answer);
    rig
}

// A grant of round 1, with slot 1 taken, comes to a node that is in round 2.
pub(crate) fn late_grant() -> Late
    ensures { LateGrant result }
{
    let before = in_round_two();
    let mut rig = before;
    let mut queue = RackQueue::new();
    queue.put(Message {
        slots: Marks::empty().with(0),
        ..Message::new(Kind::Grant, 1, 1, 0)
    });
    let answer = rig.deliver(&mut queue);
    let phase = rig.phase(0);
    let round = rig.round(0);
    Late {
        before,
        answer,
        phase,
        round,
        rig,
        queue,
    }
}

// Two linked nodes both draw with 1, and then messages are delivered until nothing comes.
pub(crate) fn both_request() -> Both
    ensures { BothRequest result }
{
    let mut rig = rig_on_path(2);
    let mut queue = RackQueue::new();
    let draws = [rig.draw(0, 1, &mut queue), rig.draw(1, 1, &mut queue)];
    // Call by call: of calls by `array::from_fn` no clause says how the last one left the rig.
    let deliveries = [
        rig.deliver(&mut queue),
        rig.deliver(&mut queue),
        rig.deliver(&mut queue),
        rig.deliver(&mut queue),
        rig.deliver(&mut queue),
        rig.deliver(&mut queue),
        rig.deliver(&mut queue),
    ];
    let phases = [rig.phase(0), rig.phase(1)];
    let slots = [rig.slot(0), rig.slot(1)];
    Both {
        draws,
        deliveries,
        phases,
        slots,
        rig,
        queue,
    }
}
