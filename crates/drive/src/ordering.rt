//! Whether an order names every node once.
ghost use Rattle.drive.specs.Orders.{OrderJudged};

use refusal::Refusal;
use schedule::ordered;

// Whether the order names every node below the count, and no node twice.
pub(crate) fn judge(order: &[u8], count: u8) -> Result<(), Refusal>
    ensures { OrderJudged count order.now result }
{
    ordered(order, usize::from(count))?;
    if (0..count).all(|k| order.contains(&k)) {
        Ok(())
    } else {
        Err(Refusal::Missing)
    }
}
