//! A list of calls.
ghost use Rattle.std.specs.Prelude.{◌≡◌, ◌+◌, ◌<◌, ◌≤◌, ◌++◌, length, take, drop};
ghost use Rattle.std.specs.Option.{option_to_list};
ghost use Rattle.map.specs.View.{nodes};
ghost use Rattle.runs.specs.Decider.{Decider};
ghost use Rattle.runs.specs.Performed.{Performs};

use crate::make;
use law::{Answer, Call};
use map::Map;
use radio::Radio;
use refusal::Refusal;
use rig::Rig;

/// What came of a list of calls. The nodes that decided stand in the caller's table: there is no heap.
#[derive(Clone, Copy)]
pub struct Performed {
    /// The rig after the last call.
    pub rig: Rig,
    /// How many nodes decided.
    pub decided: usize,
}

// A node that is undecided in `before` and decided in `after`, if there is one.
fn decider(before: &Rig, after: &Rig) -> Option<u8>
    requires { before.now.map ≡ after.now.map }
    ensures { Decider (nodes after.now.map) before.now.nodes after.now.nodes result }
{
    // By place in both tables, since the place is the node that is answered.
    let old = before.slots();
    let new = after.slots();
    (0..after.map().count()).find(|&k| old[usize::from(k)] == 0 && new[usize::from(k)] != 0)
}

// Writes a node at a place, if there is one; the place after it. A match, since a combinator's closure
// would have to write to the table.
fn append(order: &mut [u8], place: usize, node: Option<u8>) -> usize
    requires { place < length order.old }
    ensures first { take result order.new ≡ take place order.old ++ option_to_list node }
    ensures rest { drop result order.new ≡ drop result order.old }
    ensures place { (place ≤ result) × (result ≤ place + 1) }
{
    match node {
        Some(node) => {
            order[place] = node;
            place + 1
        }
        None => place,
    }
}

/// Makes all these calls, one after the other, of a new rig on this map, over this radio. The answers
/// go to the first entries of `answers`, one for each call, and the nodes that decide to the first
/// entries of `order`, in the order in which they do; the rest of both stays.
///
/// Refuses `Short` if `answers` or `order` is shorter than the calls. Nothing is called then, and all
/// stays as it is.
pub fn perform<R: Radio>(
    map: &Map,
    radio: &mut R,
    calls: &[Call],
    answers: &mut [Answer],
    order: &mut [u8],
) -> Result<Performed, Refusal>
    ensures { Performs R.ways map.now calls.now (R.state radio.old) (R.state radio.new) answers.old answers.new order.old order.new result }
{
    if answers.len() < calls.len() || order.len() < calls.len() {
        return Err(Refusal::Short);
    }
    let mut rig = Rig::new();
    rig.open(map);
    let mut decided = 0;
    // The answers go by index: of what a zip of `iter_mut` wrote, nothing can be proved.
    for (i, &call) in calls.iter().enumerate() {
        let before = rig;
        answers[i] = make(&mut rig, radio, call);
        decided = append(order, decided, decider(&before, &rig));
    }
    Ok(Performed { rig, decided })
}
