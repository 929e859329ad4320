//! Whether an order names items, and none twice.
ghost use Rattle.std.specs.Prelude.{ℕ, ◌<◌, length, map, Decides};
ghost use Rattle.schedule.specs.Order.{Numbers, Ordered};
ghost use Rattle.schedule.specs.Rand.{Repeats};

use refusal::Refusal;

// Whether the entry at this place stands for the number of an earlier one.
fn repeats<I: Copy + Into<usize>>(order: &[I], place: usize) -> bool
    requires { place < length order.now }
    ensures { (number : I → ℕ) → Numbers I.converts number → Decides result (Repeats (map number order.now) place) }
{
    let item = order[place].into();
    order[..place]
        .iter()
        .any(|earlier| (*earlier).into() == item)
}

/// Whether each entry of an order is an item below the count, and none repeats. The entries may be
/// numbers of any width that a `usize` holds, and are compared as `usize`.
///
/// Refuses, entry by entry, `Node` if it is no item below the count and `Twice` if the order has
/// named it before.
pub fn ordered<I: Copy + Into<usize>>(order: &[I], count: usize) -> Result<(), Refusal>
    ensures { (number : I → ℕ) → Numbers I.converts number → Ordered count (map number order.now) result }
{
    for (place, item) in order.iter().enumerate() {
        if (*item).into() >= count {
            return Err(Refusal::Node);
        }
        if repeats(order, place) {
            return Err(Refusal::Twice);
        }
    }
    Ok(())
}
