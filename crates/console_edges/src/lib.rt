//! Tests of reading a job from bytes that are known.
#![tactic(auto)]

#[cfg(test)]
mod tests;
