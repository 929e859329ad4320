//! A whole bench settled in an order.
ghost use Rattle.drive.specs.Drive.{Drove};

use crate::ordering::judge;
use crate::settling::settle_in_order;
use map::Map;
use radio::RackQueue;
use refusal::Refusal;
use rig::Rig;

/// Settles a bench in this order: on a new rig over a new rack queue, draws each node in turn with
/// the number 1, and after each draw delivers until nothing comes. Answers how many deliveries
/// brought a message, and fills the first entries of the table with the slots, one for each node;
/// the rest stays.
///
/// Refuses `Short` if the table is shorter than the nodes; then, entry by entry of the order, `Node`
/// if it is no node and `Twice` if the order has named it before; then `Missing` if a node is left
/// out. The table stays then.
pub fn drive(map: &Map, order: &[u8], slots: &mut [u16]) -> Result<u32, Refusal>
    ensures { Drove map.now order.now slots.old slots.new result }
{
    let count = usize::from(map.count());
    if slots.len() < count {
        return Err(Refusal::Short);
    }
    judge(order, map.count())?;
    let mut rig = Rig::new();
    rig.open(map);
    let mut queue = RackQueue::new();
    let deliveries = settle_in_order(&mut rig, &mut queue, order);
    slots[..count].copy_from_slice(&rig.slots()[..count]);
    Ok(deliveries)
}
