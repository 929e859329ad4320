//! Tests of the drive at its edges: small maps, the largest, refused orders, and tables of any length.
#![tactic(auto)]

#[cfg(test)]
mod tests;
