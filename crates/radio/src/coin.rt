//! The coin radio.
use crate::air::Air;

pub(crate) mod calls;

/// A radio that loses, reorders and repeats by a generator of its own, so that a run can be had
/// again from its seed. It has space for 256 messages; one that is put into a full air is lost.
#[derive(Clone, Copy)]
pub struct CoinRadio {
    value: u32,
    air: Air,
}
