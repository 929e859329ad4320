//! What a job says: the map, the seed and the events that its records describe.
#![tactic(auto)]

use map::Map;

mod events;
mod reading;

pub use events::MOST_DELIVERIES;
pub use reading::read;

/// What a job has a rig do.
#[derive(Clone, Copy, Debug, PartialEq, Eq)]
pub enum Event {
    /// A draw of this node with this number.
    Draw(u8, u32),
    /// Deliveries, up to this many, ending when nothing comes.
    Deliver(u32),
    /// A nudge of this node.
    Nudge(u8),
}

/// What a job sets up before its events.
#[derive(Clone, Copy, Debug, PartialEq, Eq)]
pub struct Script {
    /// The map that its N and L records describe.
    pub map: Map,
    /// The seed of the coin radio, if the job runs over it.
    pub seed: Option<u32>,
}
