//! Making a link rule, and what it tells.
ghost use Rattle.std.specs.Prelude.{◌≡◌};
ghost use Rattle.rules.specs.Link.{Made, Meant, link_items, link_laws, link_rule_clash};
ghost use Rattle.rules.specs.Pairs.{close, near};

use super::LinkRule;
use map::Map;
use refusal::Refusal;
use schedule::ClashRule;

// Whether two nodes are one, or neighbours.
fn are_near(map: &Map, x: u8, y: u8) -> bool
    ensures { result ≡ near map.now x y }
{
    x == y || map.linked(x, y)
}

// Whether an end of one pair is an end of the other or a neighbour of one. The four questions are
// written out: a search through `[q.0, q.1]` inside one through `[p.0, p.1]` is longer.
fn are_close(map: &Map, p: (u8, u8), q: (u8, u8)) -> bool
    ensures { result ≡ close map.now p q }
{
    (are_near(map, p.0, q.0) || are_near(map, p.0, q.1))
        || (are_near(map, p.1, q.0) || are_near(map, p.1, q.1))
}

impl<'a> LinkRule<'a> {
    /// How many pairs a list can have.
    pub const MOST_PAIRS: usize = 512;

    /// The link rule of a map and a list of its links; one link may be listed twice.
    ///
    /// Refuses `Count` for more than 512 pairs; then, entry by entry, `Node` if an end is no node
    /// of the map and `Unlinked` if the pair is no link.
    pub fn new(map: &'a Map, pairs: &'a [(u8, u8)]) -> Result<LinkRule<'a>, Refusal>
        ensures cases { Made map.now pairs.now result }
        ensures clash { Meant result }
    {
        if pairs.len() > LinkRule::MOST_PAIRS {
            return Err(Refusal::Count);
        }
        for &(a, b) in pairs {
            if a >= map.count() || b >= map.count() {
                return Err(Refusal::Node);
            }
            if !map.linked(a, b) {
                return Err(Refusal::Unlinked);
            }
        }
        Ok(LinkRule { map, pairs })
    }
}

impl<'a> ClashRule for LinkRule<'a> {
    const MOST: usize = LinkRule::MOST_PAIRS;

    ghost most = { 512 };

    ghost items = { link_items };

    ghost clash = { link_rule_clash };

    fn limit() -> usize
        ensures { result ≡ 512 }
    {
        Self::MOST
    }

    fn count(&self) -> usize {
        self.pairs.len()
    }

    fn clashes(&self, a: usize, b: usize) -> bool {
        match (self.pairs.get(a), self.pairs.get(b)) {
            (Some(p), Some(q)) => a != b && are_close(self.map, *p, *q),
            _ => false,
        }
    }

    ghost laws = { link_laws };
}
