//! One call.
ghost use Rattle.std.specs.Prelude.{◌≡◌, ℕ};
ghost use Rattle.law.specs.Runs.{answer_of, nodes_after, radio_after};
ghost use Rattle.rig.specs.Laws.{Decides};

use law::{Answer, Call};
use radio::Radio;
use rig::Rig;

/// Makes one call of a rig, over a radio. The two travel apart, as in each call of a rig: the radio is
/// the caller's, and any will do.
pub fn make<R: Radio>(rig: &mut Rig, radio: &mut R, call: Call) -> Answer
    ensures map { rig.new.map ≡ rig.old.map }
    ensures nodes { rig.new.nodes ≡ nodes_after R.ways rig.old.map rig.old.nodes (R.state radio.old) call }
    ensures radio { R.state radio.new ≡ radio_after R.ways rig.old.map rig.old.nodes (R.state radio.old) call }
    ensures value { result ≡ answer_of R.ways rig.old.map rig.old.nodes (R.state radio.old) call }
    ensures single { (j k : ℕ) → Decides rig.old.nodes rig.new.nodes j → Decides rig.old.nodes rig.new.nodes k → j ≡ k }
{
    // A match and no closure: which call comes is data.
    match call {
        Call::Draw(node, number) => Answer::Drawn(rig.draw(node, number, radio)),
        Call::Deliver => Answer::Delivered(rig.deliver(radio)),
        Call::Nudge(node) => Answer::Nudged(rig.nudge(node, radio)),
    }
}
