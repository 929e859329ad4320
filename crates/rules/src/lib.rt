//! The two clash rules: nodes of a map that contend, and links that are close.
#![tactic(auto)]

mod link;
mod node;

pub use link::LinkRule;
pub use node::NodeRule;
