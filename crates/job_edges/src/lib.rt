//! Tests of running jobs at their edges.
#![tactic(auto)]

#[cfg(test)]
mod tests;
