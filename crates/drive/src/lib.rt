//! The drive: settles a whole bench in an order of the caller's choice.
#![tactic(auto)]

mod driving;
mod ordering;
mod settling;

pub use driving::drive;
