//! Calls of a rig and their answers, and the law that every run of calls keeps.
#![tactic(auto)]

use radio::Kind;
use refusal::Refusal;
use rig::Lottery;

/// A call of a rig.
#[derive(Clone, Copy, Debug, PartialEq, Eq)]
pub enum Call {
    /// A lottery of this node, with this number.
    Draw(u8, u32),
    /// One message taken from the radio.
    Deliver,
    /// This node sends again what may have been lost.
    Nudge(u8),
}

/// What a call answers.
#[derive(Clone, Copy, Debug, PartialEq, Eq)]
pub enum Answer {
    /// What came of a draw.
    Drawn(Result<Lottery, Refusal>),
    /// The kind of the message delivered, or `None` if nothing came.
    Delivered(Result<Option<Kind>, Refusal>),
    /// How many messages a nudge sent.
    Nudged(Result<u8, Refusal>),
}
