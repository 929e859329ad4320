//! One node of a rig.
use marks::Marks;

/// What a node is doing.
#[derive(Clone, Copy, Debug, PartialEq, Eq)]
pub enum Phase {
    /// Nothing, and it has no slot.
    Idle,
    /// It has asked its neighbours, and waits for their grants.
    Request,
    /// It has granted the holder, and waits to hear what became of that.
    Grant,
    /// Nothing, and it has a slot.
    Release,
}

/// A node's part in the protocol. All is empty in a new rig.
#[derive(Clone, Copy, Debug, PartialEq, Eq)]
pub struct Node {
    /// What it is doing.
    pub phase: Phase,
    /// The slot it decided for, or 0. No `Option`, nor round `turn` and `dated`: the rules tell, send and
    /// tabulate a slot as a number that is 0 until the node decides.
    pub slot: u8,
    /// Its place in the order of deciding, from 1, or 0.
    pub turn: u8,
    /// How often it has asked.
    pub round: u16,
    /// The round in which it decided.
    pub dated: u16,
    /// The neighbours that granted in this round.
    pub granted: Marks,
    /// The slots it was told are taken, in this round: mark `s - 1` stands for slot `s`.
    pub taken: Marks,
    /// The slots heard from neighbours.
    pub heard: Marks,
    /// Whom it granted last.
    pub holder: u8,
    /// The round of the holder that it granted.
    pub term: u16,
}
