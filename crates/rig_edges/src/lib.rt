//! Tests of the rig at its edges, message by message over the rack queue.
#![tactic(auto)]

#[cfg(test)]
mod tests;
