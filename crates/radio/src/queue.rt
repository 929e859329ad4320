//! The rack queue.
use crate::air::Air;

pub(crate) mod calls;

/// A radio that hands out the oldest message and removes it. It has space for 256 messages; one
/// that is put into a full air is lost.
#[derive(Clone, Copy)]
pub struct RackQueue {
    air: Air,
}
