//! The checker's verdict on a rig.
ghost use Rattle.std.specs.Prelude.{ℕ, List};
ghost use Rattle.law.specs.Law.{Lawful};
ghost use Rattle.runs.specs.Performed.{Audited};

use radio::Radio;
use refusal::Refusal;
use rig::Rig;
use rules::NodeRule;
use schedule::{Verdict, check};

/// The checker's verdict on the slots of a rig, under the node rule.
///
/// The contract holds the slot law: whatever run of calls led to this rig and this radio, on whatever
/// map, its slots are RAND's for the order of deciding, and the verdict is that they are accepted.
pub fn audit<R: Radio>(rig: &Rig, radio: &R) -> Result<Verdict, Refusal>
    ensures audited { Audited R.ways rig.now.map rig.now.nodes (R.state radio.now) result }
    ensures law { Lawful R.ways rig.now.map rig.now.nodes (R.state radio.now) }
{
    let map = rig.map();
    let slots = rig.slots();
    check(&NodeRule::new(&map), &slots)
}
