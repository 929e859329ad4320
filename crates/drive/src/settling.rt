//! Settling nodes one after the other, over any radio that is sure.
ghost use Rattle.std.specs.Prelude.{◌≡◌, ◌<◌, [], None, Ok, Decides};
ghost use Rattle.map.specs.View.{nodes};
ghost use Rattle.rig.specs.Board.{new_board};
ghost use Rattle.rig.specs.Calm.{at};
ghost use Rattle.schedule.specs.Rand.{Fine};
ghost use Rattle.law.specs.Law.{SlotLaw};
ghost use Rattle.drive.specs.Settling.{Resting, Settled, Settling};
ghost use Rattle.drive.specs.Sure.{Sure};

use radio::{Kind, Radio};
use refusal::Refusal;
use rig::Rig;

// Whether a delivery brought nothing.
fn is_nothing(answer: Result<Option<Kind>, Refusal>) -> bool
    ensures { Decides result (answer ≡ Ok None) }
{
    matches!(answer, Ok(None))
}

// Draws node `a` with 1, and then delivers until nothing comes; how many messages came. That the map
// stays is a clause of its own, here and below: no type holds both rigs.
fn settle<R: Radio>(rig: &mut Rig, radio: &mut R, a: u8) -> u32
    requires sure { Sure R.ways }
    requires resting { Resting R.ways rig.old.map rig.old.nodes (R.state radio.old) }
    requires inside { a < nodes rig.old.map }
    requires undecided { (at rig.old.nodes a).slot ≡ 0 }
    ensures map { rig.new.map ≡ rig.old.map }
    ensures settling { Settling R.ways rig.old.map a rig.old.nodes rig.new.nodes (R.state radio.old) (R.state radio.new) result }
{
    let _ = rig.draw(a, 1, radio);
    // Counted by hand, here and below: of what a chain's closure changes of the rig nothing is known.
    let mut came = 0;
    while !is_nothing(rig.deliver(radio)) {
        came += 1;
    }
    came
}

// Settles each node of the order in turn, on a new rig; how many messages came.
pub(crate) fn settle_in_order<R: Radio>(rig: &mut Rig, radio: &mut R, order: &[u8]) -> u32
    requires sure { Sure R.ways }
    requires new { rig.old.nodes ≡ new_board }
    requires empty { R.ways.air (R.state radio.old) ≡ [] }
    requires fine { Fine (nodes rig.old.map) order.now }
    ensures map { rig.new.map ≡ rig.old.map }
    ensures settled { Settled R.ways rig.old.map order.now rig.new.nodes (R.state radio.new) result }
    ensures law { SlotLaw rig.old.map order.now rig.new.nodes }
{
    let mut count = 0;
    for node in order {
        count += settle(rig, radio, *node);
    }
    count
}
