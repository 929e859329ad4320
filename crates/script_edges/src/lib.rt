//! Tests of reading a job at its edges: bad records at every place, what may stand where, lengths, and
//! what a job sets up.
#![tactic(auto)]

#[cfg(test)]
mod tests;
