//! Benches of a known shape, for examples and tests.
#![tactic(auto)]

ghost use Rattle.std.specs.Prelude.{◌≡◌, max, min};
ghost use Rattle.map.specs.View.{net};
ghost use Rattle.benches.specs.Complete.{complete};
ghost use Rattle.benches.specs.Paths.{path as path_of};

use map::Map;

/// The path 0–1–2–.. of so many nodes: of one for 0, and of 64 for more.
pub fn path(count: u8) -> Map
    ensures { net result ≡ path_of (max 1 (min count 64)) }
{
    let count = count.clamp(1, Map::LIMIT);
    let mut map = Map::new();
    let _ = map.open(count);
    for a in 0..count - 1 {
        let _ = map.link(a, a + 1);
    }
    map
}

/// Every two of so many nodes linked: of one node for 0, and of 64 for more.
pub fn full(count: u8) -> Map
    ensures { net result ≡ complete (max 1 (min count 64)) }
{
    let count = count.clamp(1, Map::LIMIT);
    let mut map = Map::new();
    let _ = map.open(count);
    for a in 0..count {
        for b in 0..a {
            let _ = map.link(a, b);
        }
    }
    map
}
