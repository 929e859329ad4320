//! Text in a space of fixed size, written from its start: words, numbers and line ends.
#![tactic(auto)]

use bounded::Bounded;

mod writing;

/// A text of at most 1,024 bytes. What is written past them is lost.
#[derive(Drop)]
pub struct Text {
    bytes: Bounded<u8, 1024>,
}
