//! Running a job: its events on a rig, and the listing of what came of them.
#![tactic(auto)]

mod counting;
mod listing;
mod playing;
mod running;

pub use running::{print, run};
