use benches::full;
use map::Map;
use marks::Marks;
use records::{Reader, Record, build};
use refusal::Refusal;
use report::report;
use std::test::Fail;

// A map of so many nodes with these links; what the map refuses is left out.
fn map_of(count: u8, links: &[(u8, u8)]) -> Map {
    let mut map = Map::new();
    let _ = map.open(count);
    for &(a, b) in links {
        let _ = map.link(a, b);
    }
    map
}

// How many contenders each of the first four nodes has.
fn contender_counts(map: &Map) -> [u8; 4] {
    [0, 1, 2, 3].map(|node| map.contenders(node).len())
}

#[test]
fn refusals_by_number(rt: HostRuntime) {
    for (refusal, number) in [
        (Refusal::Short, 1),
        (Refusal::Count, 2),
        (Refusal::Node, 3),
        (Refusal::SelfLink, 4),
        (Refusal::Twice, 5),
        (Refusal::Missing, 6),
        (Refusal::Unlinked, 7),
        (Refusal::Settled, 8),
        (Refusal::Busy, 9),
        (Refusal::Spent, 10),
        (Refusal::Quiet, 11),
        (Refusal::Foreign, 12),
        (Refusal::Torn, 13),
    ] {
        assert_eq!(rt; (u8::from(refusal), refusal.index()), (number, None));
    }
    let record = Refusal::Record(4095);
    assert_eq!(rt; (u8::from(record), record.index()), (14, Some(4095)));
}

#[test]
fn marks_at_the_ends(rt: HostRuntime) {
    let ends = Marks::empty().with(0).with(63).with(64);
    assert_eq!(rt; ends.len(), 2);
    assert!(rt; ends.has(0) && ends.has(63) && !ends.has(64) && !ends.has(255));
    assert_eq!(rt; ends.first_missing(), Some(1));
    assert_eq!(rt; ends.without(0).without(63), Marks::empty());
    let all = (0..64).fold(Marks::empty(), |marks, i| marks.with(i));
    assert_eq!(rt; all.first_missing(), None);
    assert_eq!(rt; all.without(63).first_missing(), Some(63));
    assert_eq!(rt; all.union(ends).len(), 64);
}

#[test]
fn counts_of_nodes(rt: HostRuntime) {
    let mut map = map_of(3, &[(0, 1)]);
    for count in [0, 65, 255] {
        assert_eq!(rt; map.open(count), Err(Refusal::Count));
        assert_eq!(rt; (map.count(), map.links()), (3, 1));
    }
    for count in [1, 64] {
        assert_eq!(rt; map.open(count), Ok(()));
        assert_eq!(rt; (map.count(), map.links()), (count, 0));
    }
}

#[test]
fn links_refused_and_repeated(rt: HostRuntime) {
    let mut map = map_of(3, &[(0, 1)]);
    for (a, b, answer) in [
        (1, 1, Err(Refusal::SelfLink)),
        (0, 3, Err(Refusal::Node)),
        (3, 0, Err(Refusal::Node)),
        (3, 3, Err(Refusal::Node)),
        (255, 0, Err(Refusal::Node)),
        (1, 0, Ok(())),
        (0, 1, Ok(())),
    ] {
        assert_eq!(rt; map.link(a, b), answer);
        assert_eq!(rt; map.links(), 1);
        assert!(rt; map.linked(0, 1) && map.linked(1, 0) && !map.linked(1, 2));
    }
    assert_eq!(rt; map.link(2, 1), Ok(()));
    assert_eq!(rt; (map.degree(1), map.degree(2), map.links()), (2, 1, 2));
}

#[test]
fn contenders_of_small_maps(rt: HostRuntime) {
    let path = map_of(4, &[(0, 1), (1, 2), (2, 3)]);
    assert_eq!(rt; contender_counts(&path), [2, 3, 3, 2]);
    assert_eq!(rt; path.contenders(0), Marks::empty().with(1).with(2));
    let star = map_of(5, &[(0, 1), (0, 2), (0, 3), (0, 4)]);
    assert_eq!(rt; contender_counts(&star), [4, 4, 4, 4]);
    let triangle = map_of(4, &[(0, 1), (1, 2), (2, 0)]);
    assert_eq!(rt; contender_counts(&triangle), [2, 2, 2, 0]);
    assert_eq!(rt; contender_counts(&map_of(4, &[])), [0, 0, 0, 0]);
    assert_eq!(rt; path.contenders(4), Marks::empty());
}

// Pair by pair, since each answer is tested.
#[test]
fn a_full_map_of_64(rt: HostRuntime) {
    let mut map = map_of(64, &[]);
    for a in 0..64 {
        for b in 0..a {
            assert_eq!(rt; map.link(a, b), Ok(()));
        }
    }
    assert_eq!(rt; map, full(64));
    assert_eq!(rt; map.links(), 2016);
    for n in 0..64 {
        assert_eq!(rt; (map.degree(n), map.contenders(n).len()), (63, 63));
    }
}

#[test]
fn lengths_of_jobs(rt: HostRuntime) -> Result<(), Fail> {
    let mut job = [0u8; 32_776];
    for record in job.chunks_exact_mut(8) {
        record.copy_from_slice(b"L\0\x01\0\0\0\0\0");
    }
    job[0..8].copy_from_slice(b"N\x02\0\0\0\0\0\0");
    let lengths = [
        (0, Some(Refusal::Record(0))),
        (7, Some(Refusal::Torn)),
        (8, None),
        (32_760, None),
        (32_767, Some(Refusal::Torn)),
        (32_768, None),
        (32_769, Some(Refusal::Count)),
        (32_776, Some(Refusal::Count)),
    ];
    for (length, refusal) in lengths {
        let part = job.get(0..length).ok_or("no job of this length")?;
        assert_eq!(rt; build(part).err(), refusal);
    }
    Ok(())
}

#[test]
fn parts_of_a_record(rt: HostRuntime) -> Result<(), Fail> {
    let record = Record::take_apart(b"D\x07\x09\0\x01\x02\x03\x04").ok_or("no record")?;
    assert_eq!(rt; (record.letter, record.first, record.second), (b'D', 7, 9));
    assert_eq!(rt; record.number, 0x0102_0304);
    assert!(rt; Record::take_apart(b"D\x07\x09\x01\0\0\0\0").is_none());
    assert!(rt; Record::take_apart(b"D\x07\x09\0\0\0\0").is_none());
    assert!(rt; Record::take_apart(b"D\x07\x09\0\0\0\0\0\0").is_none());
    let mut reader = Reader::new(b"N\x02\0\0\0\0\0\0L\0\x01\0\0\0\0\0LLL");
    assert_eq!(rt; reader.index(), 0);
    assert_eq!(rt; reader.next(), Some(b"N\x02\0\0\0\0\0\0".as_slice()));
    assert_eq!(rt; reader.index(), 0);
    assert_eq!(rt; reader.next(), Some(b"L\0\x01\0\0\0\0\0".as_slice()));
    assert_eq!(rt; reader.index(), 1);
    assert!(rt; reader.next().is_none());
    assert_eq!(rt; reader.index(), 1);
    Ok(())
}

#[test]
fn bad_first_records(rt: HostRuntime) {
    for first in [
        b"N\0\0\0\0\0\0\0",
        b"N\x41\0\0\0\0\0\0",
        b"N\x03\x01\0\0\0\0\0",
        b"N\x03\0\x01\0\0\0\0",
        b"N\x03\0\0\x01\0\0\0",
        b"N\x03\0\0\0\0\0\x01",
        b"L\0\x01\0\0\0\0\0",
        b"n\x03\0\0\0\0\0\0",
        b"C\0\0\0\0\0\0\x01",
    ] {
        assert_eq!(rt; build(first).err(), Some(Refusal::Record(0)));
    }
    assert_eq!(rt; build(b"N\x40\0\0\0\0\0\0").err(), None);
}

#[test]
fn bad_later_records(rt: HostRuntime) {
    let mut job = *b"N\x03\0\0\0\0\0\0L\0\x01\0\0\0\0\0L\x01\x02\0\0\0\0\0L\x02\x02\0\0\0\0\0";
    assert_eq!(rt; build(&job).err(), Some(Refusal::Record(3)));
    for second in [
        b"L\x01\x03\0\0\0\0\0",
        b"L\x03\x01\0\0\0\0\0",
        b"L\x01\x01\0\0\0\0\0",
        b"L\x01\x02\x01\0\0\0\0",
        b"L\x01\x02\0\0\0\0\x01",
        b"N\x03\0\0\0\0\0\0",
        b"C\0\0\0\0\0\0\x01",
        b"D\x01\0\0\0\0\0\x01",
        b"\0\0\0\0\0\0\0\0",
    ] {
        job[16..24].copy_from_slice(second);
        assert_eq!(rt; build(&job).err(), Some(Refusal::Record(2)));
    }
}

#[test]
fn reports(rt: HostRuntime) {
    let path = b"N\x03\0\0\0\0\0\0L\0\x01\0\0\0\0\0L\x01\x02\0\0\0\0\0";
    assert_eq!(rt;
        report(path).as_bytes(),
        b"0 1 2 1\n1 2 2 2\n2 1 2 3\ntotal 3 2 3 3 accepted\n".as_slice()
    );
    assert_eq!(rt; report(b"").as_bytes(), b"refused 14 0\n".as_slice());
    assert_eq!(rt; report(b"N\x03").as_bytes(), b"refused 13\n".as_slice());
    assert_eq!(rt; report(&[0; 32_769]).as_bytes(), b"refused 2\n".as_slice());
}
