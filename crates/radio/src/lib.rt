//! Radios: what the nodes of a bench send and hear each other through.
//!
//! A radio may lose, repeat and reorder. The trait says by a radio's own rule what each call does to
//! its state, and by the air rule what no radio does: make up a message.
#![tactic(auto)]

mod air;
mod coin;
mod interface;
mod kind;
mod message;
mod queue;

pub use coin::CoinRadio;
pub use coin::calls::step;
pub use interface::{Radio, put_all};
pub use kind::{Kind, UnknownKind};
pub use message::Message;
pub use queue::RackQueue;
