//! The map of a bench: 1 to 64 nodes, numbered from 0, and the links among them.
//!
//! Every map has only mutual links between two different nodes below its count. The type keeps
//! that, so no function here asks anything of its caller.
#![tactic(auto)]

ghost use Rattle.std.specs.Prelude.{◌≡◌, ◌≤◌, length};
ghost use Rattle.map.specs.Rows.{Apart, Mutual, Within};

use marks::Marks;

mod build;
mod questions;

/// A lawful map. Row `n` holds the neighbours of node `n`.
#[derive(Clone, Copy, Debug, PartialEq, Eq)]
pub struct Map {
    count: u8,
    rows: [Marks; 64],
    ghost least: { 1 ≤ count },
    ghost most: { count ≤ 64 },
    ghost full: { length rows ≡ 64 },
    ghost both: { Mutual rows },
    ghost apart: { Apart rows },
    ghost within: { Within count rows },
}
