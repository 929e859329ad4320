//! Making a node rule, and what it tells.
ghost use Rattle.std.specs.Prelude.{◌≡◌, ℕ, Decides};
ghost use Rattle.map.specs.View.{Contend};
ghost use Rattle.rules.specs.Node.{node_clash, node_items, node_laws};

use super::NodeRule;
use map::Map;
use schedule::ClashRule;

impl<'a> NodeRule<'a> {
    /// The node rule of a map.
    pub fn new(map: &'a Map) -> NodeRule<'a>
        ensures map { result.map.now ≡ map.now }
        ensures clash { (a b : ℕ) → Decides (node_clash result a b) (Contend map.now a b) }
    {
        NodeRule { map }
    }
}

impl<'a> ClashRule for NodeRule<'a> {
    const MOST: usize = 64;

    ghost most = { 64 };

    ghost items = { node_items };

    ghost clash = { node_clash };

    fn limit() -> usize
        ensures { result ≡ 64 }
    {
        Self::MOST
    }

    fn count(&self) -> usize {
        usize::from(self.map.count())
    }

    fn clashes(&self, a: usize, b: usize) -> bool {
        match (u8::try_from(a), u8::try_from(b)) {
            (Ok(a), Ok(b)) => self.map.contenders(a).has(b),
            _ => false,
        }
    }

    ghost laws = { node_laws };
}
