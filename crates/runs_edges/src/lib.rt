//! Tests of lists of calls.
#![tactic(auto)]

#[cfg(test)]
mod tests;
