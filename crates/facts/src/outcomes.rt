//! What the worked examples come to.
use radio::{Kind, RackQueue};
use refusal::Refusal;
use rig::{Lottery, Phase, Rig};
use schedule::Verdict;

/// A lone node that drew with 1.
#[derive(Clone, Copy)]
pub struct Lone {
    /// What the draw answered.
    pub answer: Result<Lottery, Refusal>,
    /// The node's slot.
    pub slot: Result<u8, Refusal>,
    /// The node's turn.
    pub turn: Result<u8, Refusal>,
    /// The rig after the draw.
    pub rig: Rig,
    /// The radio after the draw; it was empty before.
    pub queue: RackQueue,
}

/// One node of three that all contend drew, on a new rig for each number.
#[derive(Clone, Copy)]
pub struct Draws {
    /// How many contenders the node has.
    pub contenders: u8,
    /// What the draws with 0, 1, 3, 7 and 8 answered.
    pub answers: [Result<Lottery, Refusal>; 5],
}

/// A node in request in round 2, which got a grant of round 1.
#[derive(Clone, Copy)]
pub struct Late {
    /// The rig before the delivery.
    pub before: Rig,
    /// What the delivery answered.
    pub answer: Result<Option<Kind>, Refusal>,
    /// The node's phase after it.
    pub phase: Result<Phase, Refusal>,
    /// The node's round after it.
    pub round: Result<u16, Refusal>,
    /// The rig after it.
    pub rig: Rig,
    /// The radio after it; the grant alone was in it before.
    pub queue: RackQueue,
}

/// Two linked nodes that both asked, over the rack queue.
#[derive(Clone, Copy)]
pub struct Both {
    /// What the draws of node 0 and node 1 answered.
    pub draws: [Result<Lottery, Refusal>; 2],
    /// What the deliveries after that answered.
    pub deliveries: [Result<Option<Kind>, Refusal>; 7],
    /// The phases of node 0 and node 1 after all.
    pub phases: [Result<Phase, Refusal>; 2],
    /// Their slots after all.
    pub slots: [Result<u8, Refusal>; 2],
    /// The rig after all.
    pub rig: Rig,
    /// The radio after all.
    pub queue: RackQueue,
}

/// The plan of the path 0–1–2–3 under the node rule, in the order 0, 3, 1, 2.
#[derive(Clone, Copy)]
pub struct Plan {
    /// What the planner answered.
    pub answer: Result<(), Refusal>,
    /// The slots of the nodes 0 to 3.
    pub slots: [u16; 4],
}

/// What the checker says of two tables on the path 0–1–2, under the node rule.
#[derive(Clone, Copy)]
pub struct Checks {
    /// The slots 1, 2, 1.
    pub shared: Result<Verdict, Refusal>,
    /// The slots 1, 2, 0.
    pub apart: Result<Verdict, Refusal>,
}

/// Whether links of the path 0–1–2–3–4 clash.
#[derive(Clone, Copy)]
pub struct Links {
    /// The pairs (0, 1) and (2, 3).
    pub near: bool,
    /// The pairs (0, 1) and (3, 4).
    pub far: bool,
}

/// What opening a map answered.
#[derive(Clone, Copy)]
pub struct Openings {
    /// With 64 nodes.
    pub most: Result<(), Refusal>,
    /// With 65 nodes.
    pub more: Result<(), Refusal>,
}

/// What all the worked examples come to.
#[derive(Clone, Copy)]
pub struct Examples {
    /// A lone node draws.
    pub lone: Lone,
    /// A node with two contenders draws.
    pub draws: Draws,
    /// The planner on a path of four.
    pub plan: Plan,
    /// The checker on a path of three.
    pub checks: Checks,
    /// A grant of an earlier round.
    pub late: Late,
    /// Two linked nodes both ask.
    pub both: Both,
    /// The link rule on a path of five.
    pub links: Result<Links, Refusal>,
    /// The generator's value after 1.
    pub step: u32,
    /// Maps of 64 and of 65 nodes.
    pub openings: Openings,
}
