//! Tests at the edges of the lowest layers: counts of nodes, links, contenders, lengths of jobs, bad
//! records and reports.
#![tactic(auto)]

#[cfg(test)]
mod tests;
