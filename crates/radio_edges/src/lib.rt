//! Tests of the radios at their edges, and of a radio that loses everything.
#![tactic(auto)]

#[cfg(test)]
mod tests;
