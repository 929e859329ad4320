//! Tests at the edges of planner and checker, under both clash rules, and of the host's checker.
#![tactic(auto)]

#[cfg(test)]
mod tests;
