//! The checker as a host in C calls it.
#![tactic(auto)]

ghost use Rattle.std.specs.Prelude.{◌≡◌, ℕ, ◌<◌, ◌≤◌, length, slice_index};
ghost use Rattle.map.specs.View.{contend, nodes};
ghost use Rattle.schedule.specs.Sharing.{Checked};
ghost use Rattle.host.specs.Answer.{Answered, folded};

use map::Map;
use records::build;
use refusal::Refusal;
use rules::NodeRule;
use schedule::{ClashRule, Verdict, check};

/// What is added to a refusal's number.
pub const REFUSED: u32 = 65_536;

// The slots, as wide as the checker reads them, with 0 past their end.
fn widened(slots: &[u8]) -> [u16; 64]
    requires { length slots.now ≤ 64 }
    ensures len { length result ≡ 64 }
    ensures same { (k : ℕ) → k < 64 → slice_index result k ≡ slice_index slots.now k }
{
    let mut wide = [0; 64];
    // By place: of what a walk over `iter_mut` writes nothing is known.
    for (i, slot) in slots.iter().enumerate() {
        wide[i] = u16::from(*slot);
    }
    wide
}

fn judge(map: &Map, slots: &[u8]) -> Result<Verdict, Refusal>
    ensures { Checked (contend map.now) (nodes map.now) slots.now result }
{
    let nodes = slots.get(..usize::from(map.count())).ok_or(Refusal::Short)?;
    check(&NodeRule::new(map), &widened(nodes))
}

fn fold(answer: Result<Verdict, Refusal>) -> u32
    ensures { result ≡ folded answer }
{
    match answer {
        Ok(Verdict::Accepted(_)) => 0,
        Ok(Verdict::Clash((a, b))) => 256 * u32::from(a) + u32::from(b),
        Err(refusal) => REFUSED + u32::from(u8::from(refusal)),
    }
}

/// Checks the slots of a bench. `job` holds N and L records, and `slots` a byte for each node, 0
/// for no slot; bytes past the nodes are not read.
///
/// Answers 0 if no two contenders share a slot, 256 × a + b for the first pair a, b that does, or
/// 65,536 plus a refusal's number: 2 or 13 by the job's length, 14 for a bad record, then 1 for
/// fewer slots than nodes.
pub fn slot_check(job: &[u8], slots: &[u8]) -> u32
    ensures { Answered job.now slots.now result }
{
    fold(build(job).and_then(|map| judge(&map, slots)))
}
