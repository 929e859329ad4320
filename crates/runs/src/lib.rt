//! Performing calls of a rig, one or a whole list, and what the slot law says of a rig.
#![tactic(auto)]

mod auditing;
mod making;
mod performing;

pub use auditing::audit;
pub use making::make;
pub use performing::{Performed, perform};
