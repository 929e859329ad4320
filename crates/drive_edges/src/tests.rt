use benches::{full, path};
use drive::drive;
use map::Map;
use refusal::Refusal;
use std::array;

// So many nodes without a link.
fn lone(count: u8) -> Map {
    let mut map = Map::new();
    let _ = map.open(count);
    map
}

// Node 0 linked to each other of so many nodes.
fn star(count: u8) -> Map {
    let mut map = lone(count);
    for a in 1..count {
        let _ = map.link(0, a);
    }
    map
}

#[test]
fn orders_on_a_path(rt: HostRuntime) {
    for (order, slots) in [
        ([0u8, 3, 1, 2], [1u16, 2, 3, 1]),
        ([0, 1, 2, 3], [1, 2, 3, 1]),
        ([3, 2, 1, 0], [1, 3, 2, 1]),
        ([1, 2, 0, 3], [3, 1, 2, 3]),
    ] {
        let mut table = [9u16; 4];
        assert_eq!(rt; drive(&path(4), &order, &mut table), Ok(18));
        assert_eq!(rt; table, slots);
    }
}

#[test]
fn other_maps(rt: HostRuntime) {
    let mut table = [9u16; 7];
    assert_eq!(rt; drive(&star(5), &[4, 0, 2, 1, 3], &mut table), Ok(24));
    assert_eq!(rt; table, [2, 4, 3, 5, 1, 9, 9]);
    assert_eq!(rt; drive(&lone(6), &[5, 3, 1, 0, 2, 4], &mut table), Ok(0));
    assert_eq!(rt; table, [1, 1, 1, 1, 1, 1, 9]);
    let mut one = [9u16; 2];
    assert_eq!(rt; drive(&Map::new(), &[0], &mut one), Ok(0));
    assert_eq!(rt; one, [1, 9]);
}

#[test]
fn all_of_64_linked(rt: HostRuntime) {
    // A cast: it loses nothing, and `try_from` would bring an error that never comes.
    let order: [u8; 64] = array::from_fn(|i| 63 - i as u8);
    let mut table = [0u16; 64];
    assert_eq!(rt; drive(&full(64), &order, &mut table), Ok(12_096));
    assert_eq!(rt; (table[63], table[62], table[1], table[0]), (1, 2, 63, 64));
}

#[test]
fn refused_drives(rt: HostRuntime) {
    let map = path(3);
    let mut short = [9u16; 2];
    assert_eq!(rt; drive(&map, &[0, 1, 2], &mut short), Err(Refusal::Short));
    assert_eq!(rt; drive(&map, &[7, 7], &mut short), Err(Refusal::Short));
    assert_eq!(rt; short, [9, 9]);
    let mut table = [9u16; 4];
    assert_eq!(rt; drive(&map, &[], &mut table), Err(Refusal::Missing));
    assert_eq!(rt; drive(&map, &[2, 0], &mut table), Err(Refusal::Missing));
    assert_eq!(rt; table, [9, 9, 9, 9]);
    for (order, refusal) in [
        ([0u8, 1, 1, 2], Refusal::Twice),
        ([0, 0, 3, 1], Refusal::Twice),
        ([0, 3, 0, 1], Refusal::Node),
        ([255, 0, 0, 1], Refusal::Node),
        ([2, 1, 0, 3], Refusal::Node),
        ([2, 1, 0, 2], Refusal::Twice),
    ] {
        let mut table = [9u16; 3];
        assert_eq!(rt; drive(&map, &order, &mut table), Err(refusal));
        assert_eq!(rt; table, [9, 9, 9]);
    }
}
