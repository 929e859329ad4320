//! The node rule, for broadcasts.
use map::Map;

pub(crate) mod making;

/// The items are the nodes of a map; contenders clash.
#[derive(Clone, Copy)]
pub struct NodeRule<'a> {
    map: &'a Map,
}
