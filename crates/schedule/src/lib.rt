//! Slots for items that clash: the rule of what clashes, one planner and one checker for every rule.
#![tactic(auto)]

mod checking;
mod ordering;
mod planning;
mod rule;

pub use checking::{Verdict, check};
pub use ordering::ordered;
pub use planning::plan;
pub use rule::ClashRule;
