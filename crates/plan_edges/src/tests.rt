use benches::{full, path};
use host::slot_check;
use refusal::Refusal;
use rules::{LinkRule, NodeRule};
use schedule::{ClashRule, Verdict, check, plan};
use std::array;
use std::test::Fail;

#[test]
fn plans_on_a_path(rt: HostRuntime) {
    let map = path(4);
    let rule = NodeRule::new(&map);
    let mut slots = [9u16; 5];
    assert_eq!(rt; plan(&rule, &[0, 3, 1, 2], &mut slots), Ok(()));
    assert_eq!(rt; slots, [1, 2, 3, 1, 9]);
    assert_eq!(rt; plan(&rule, &[2], &mut slots), Ok(()));
    assert_eq!(rt; slots, [0, 0, 1, 0, 9]);
    assert_eq!(rt; plan(&rule, &[], &mut slots), Ok(()));
    assert_eq!(rt; slots, [0, 0, 0, 0, 9]);
}

#[test]
fn refused_plans(rt: HostRuntime) {
    let map = path(4);
    let rule = NodeRule::new(&map);
    let mut short = [9u16; 3];
    assert_eq!(rt; plan(&rule, &[7], &mut short), Err(Refusal::Short));
    assert_eq!(rt; short, [9, 9, 9]);
    let mut exact = [9u16; 4];
    assert_eq!(rt; plan(&rule, &[0, 4, 0], &mut exact), Err(Refusal::Node));
    assert_eq!(rt; plan(&rule, &[0, 1, 0, 4], &mut exact), Err(Refusal::Twice));
    assert_eq!(rt; exact, [9, 9, 9, 9]);
    assert_eq!(rt; plan(&rule, &[3, 2, 1, 0], &mut exact), Ok(()));
    assert_eq!(rt; exact, [1, 3, 2, 1]);
}

#[test]
fn checks_on_a_path(rt: HostRuntime) {
    let map = path(3);
    let rule = NodeRule::new(&map);
    assert_eq!(rt; check(&rule, &[1, 2, 1]), Ok(Verdict::Clash((0, 2))));
    assert_eq!(rt; check(&rule, &[1, 2, 0]), Ok(Verdict::Accepted(2)));
    assert_eq!(rt; check(&rule, &[0, 0, 0]), Ok(Verdict::Accepted(0)));
    assert_eq!(rt;
        check(&rule, &[65_535, 2, 65_535]),
        Ok(Verdict::Clash((0, 2)))
    );
    assert_eq!(rt; check(&rule, &[3, 7, 7]), Ok(Verdict::Clash((1, 2))));
    assert_eq!(rt; check(&rule, &[5, 5, 5]), Ok(Verdict::Clash((0, 1))));
    assert_eq!(rt; check(&rule, &[1, 2]), Err(Refusal::Short));
    assert_eq!(rt; check(&rule, &[1, 2, 3, 1, 9]), Ok(Verdict::Accepted(3)));
}

#[test]
fn all_of_64_linked(rt: HostRuntime) {
    // Pair by pair, since each answer is tested.
    let mut map = path(64);
    for a in 0..64 {
        for b in 0..a {
            assert_eq!(rt; map.link(a, b), Ok(()));
        }
    }
    assert!(rt; map == full(64));
    let rule = NodeRule::new(&map);
    // A cast: it loses nothing, and `try_from` would bring an error that never comes.
    let order: [u16; 64] = array::from_fn(|i| 63 - i as u16);
    let mut slots = [0u16; 64];
    assert_eq!(rt; plan(&rule, &order, &mut slots), Ok(()));
    assert_eq!(rt; (slots[63], slots[62], slots[0]), (1, 2, 64));
    assert_eq!(rt; check(&rule, &slots), Ok(Verdict::Accepted(64)));
}

#[test]
fn links_on_a_path(rt: HostRuntime) -> Result<(), Fail> {
    let map = path(5);
    let pairs = [(0, 1), (2, 3), (3, 4), (0, 1)];
    let rule = LinkRule::new(&map, &pairs)?;
    assert!(rt; rule.clashes(0, 1) && rule.clashes(1, 2) && rule.clashes(3, 0));
    assert!(rt; !rule.clashes(0, 2) && !rule.clashes(0, 0) && !rule.clashes(0, 4));
    let mut slots = [0u16; 4];
    assert_eq!(rt; plan(&rule, &[0, 1, 2, 3], &mut slots), Ok(()));
    assert_eq!(rt; slots, [1, 2, 1, 3]);
    assert_eq!(rt; check(&rule, &[1, 2, 1, 1]), Ok(Verdict::Clash((0, 3))));
    Ok(())
}

#[test]
fn lists_of_links(rt: HostRuntime) {
    let map = path(5);
    let pairs = [(1u8, 0u8); 513];
    assert_eq!(rt; LinkRule::new(&map, &pairs[0..512]).err(), None);
    assert_eq!(rt;
        LinkRule::new(&map, &pairs[0..513]).err(),
        Some(Refusal::Count)
    );
    assert_eq!(rt; LinkRule::new(&map, &[]).err(), None);
    assert_eq!(rt;
        LinkRule::new(&map, &[(0, 5), (0, 2)]).err(),
        Some(Refusal::Node)
    );
    assert_eq!(rt; LinkRule::new(&map, &[(5, 0)]).err(), Some(Refusal::Node));
    assert_eq!(rt;
        LinkRule::new(&map, &[(0, 2), (0, 5)]).err(),
        Some(Refusal::Unlinked)
    );
    assert_eq!(rt;
        LinkRule::new(&map, &[(1, 1)]).err(),
        Some(Refusal::Unlinked)
    );
}

#[test]
fn the_host(rt: HostRuntime) {
    let path = b"N\x03\0\0\0\0\0\0L\0\x01\0\0\0\0\0L\x01\x02\0\0\0\0\0";
    assert_eq!(rt; slot_check(path, &[1, 2, 3]), 0);
    assert_eq!(rt; slot_check(path, &[1, 2, 0, 1]), 0);
    assert_eq!(rt; slot_check(path, &[1, 2, 1]), 2);
    assert_eq!(rt; slot_check(path, &[1, 255, 255]), 256 + 2);
    assert_eq!(rt; slot_check(path, &[1, 2]), 65_537);
    assert_eq!(rt; slot_check(&path[0..23], &[1, 2]), 65_549);
    assert_eq!(rt; slot_check(b"", &[]), 65_550);
    assert_eq!(rt;
        slot_check(b"N\x01\0\0\0\0\0\0D\0\0\0\0\0\0\x01", &[]),
        65_550
    );
    assert_eq!(rt; slot_check(&[0; 32_769], &[]), 65_538);
}
