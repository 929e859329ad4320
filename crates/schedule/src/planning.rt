//! Giving slots to the items of an order, one by one.
ghost use Rattle.std.specs.Prelude.{◌≡◌, ◌≤◌, length};
ghost use Rattle.schedule.specs.Order.{Planned, Sound, entries};
ghost use Rattle.schedule.specs.Rand.{holds, least};

use crate::ClashRule;
use crate::ordering::ordered;
use crate::rule::bounded;
use refusal::Refusal;

// Whether an item that clashes with `a` holds the slot.
fn held<C: ClashRule>(rule: &C, slots: &[u16], a: usize, slot: u16) -> bool
    ensures { result ≡ holds (C.clash rule.now) (length slots.now) (entries slots.now) a slot }
{
    // Over the items, since the rule is asked for each by its number.
    (0..slots.len()).any(|b| slots[b] == slot && rule.clashes(a, b))
}

// The smallest slot from 1 that no item clashing with `a` holds. As many slots as a rule can have
// items can all be held, and then the next one is free.
fn lowest<C: ClashRule>(rule: &C, slots: &[u16], a: usize) -> u16
    requires few { (length slots.now ≤ C.most) × (C.most ≤ 512) }
    ensures { result ≡ least (C.clash rule.now) (length slots.now) (entries slots.now) a }
{
    // A cast: at most 512, and `u16::try_from` would bring an error that never comes.
    let last = C::limit() as u16 + 1;
    (1..last)
        .find(|slot| !held(rule, slots, a, *slot))
        .unwrap_or(last)
}

/// Plans the slots of all items by RAND: every item starts at 0, and each item of the order in
/// turn gets the smallest slot from 1 that no clashing item holds. Entries of the table past the
/// items stay.
///
/// Refuses `Short` if the table is shorter than the items; then, entry by entry of the order,
/// `Node` if it is no item and `Twice` if the order has named it before. The table stays then.
pub fn plan<C: ClashRule>(rule: &C, order: &[u16], slots: &mut [u16]) -> Result<(), Refusal>
    ensures after { Planned (C.clash rule.now) (C.items rule.now) order.now slots.old slots.new result }
    ensures sound { Sound (C.clash rule.now) (C.items rule.now) order.now slots.new result }
{
    let count = bounded(rule);
    if slots.len() < count {
        return Err(Refusal::Short);
    }
    ordered(order, count)?;
    let table = &mut slots[..count];
    table.fill(0);
    for item in order {
        let a = usize::from(*item);
        table[a] = lowest(rule, table, a);
    }
    Ok(())
}
