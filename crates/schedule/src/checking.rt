//! Looking for two items that clash and share a slot.
ghost use Rattle.std.specs.Prelude.{◌<◌, length};
ghost use Rattle.schedule.specs.Sharing.{Checked, Partner};

use crate::ClashRule;
use crate::rule::bounded;
use refusal::Refusal;

/// What the checker says of a table of slots. Both are verdicts, and neither is an error, so this
/// is no `Result`.
#[derive(Clone, Copy, Debug, PartialEq, Eq)]
pub enum Verdict {
    /// No two clashing items share a slot; the largest slot, or 0 if there is none.
    Accepted(u16),
    /// The first pair of clashing items that share one: the lowest first item, then the lowest
    /// second.
    Clash((u16, u16)),
}

// The first item after `a` that clashes with it and shares its slot.
fn partner<C: ClashRule>(rule: &C, slots: &[u16], a: usize) -> Option<usize>
    requires { a < length slots.now }
    ensures { Partner (C.clash rule.now) (length slots.now) slots.now a result }
{
    let slot = slots[a];
    if slot == 0 {
        return None;
    }
    // Over the items, since the rule is asked for each by its number.
    (a + 1..slots.len()).find(|b| slots[*b] == slot && rule.clashes(a, *b))
}

/// Checks a table of slots, one for each item; 0 means no slot, and entries past the items are not
/// read.
///
/// Refuses `Short` if the table is shorter than the items.
pub fn check<C: ClashRule>(rule: &C, slots: &[u16]) -> Result<Verdict, Refusal>
    ensures { Checked (C.clash rule.now) (C.items rule.now) slots.now result }
{
    let count = bounded(rule);
    if slots.len() < count {
        return Err(Refusal::Short);
    }
    let table = &slots[..count];
    let mut largest = 0;
    for (a, slot) in table.iter().enumerate() {
        if let Some(b) = partner(rule, table, a) {
            // Casts: there are at most 512 items, and `u16::try_from` would bring an error that never comes.
            return Ok(Verdict::Clash((a as u16, b as u16)));
        }
        largest = largest.max(*slot);
    }
    Ok(Verdict::Accepted(largest))
}
