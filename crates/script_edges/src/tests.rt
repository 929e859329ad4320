use refusal::Refusal;
use script::{Event, read};

// The count of nodes, the number of links and the seed that a job sets up, or `None` if it is refused.
fn set_up(job: &[u8]) -> Option<(u8, u16, Option<u32>)> {
    let script = read(job).ok()?;
    Some((script.map.count(), script.map.links(), script.seed))
}

// Writes a record at a place of a job that has it.
fn put(job: &mut [u8], place: usize, record: &[u8; 8]) {
    if let Some(bytes) = job.chunks_exact_mut(8).nth(place) {
        bytes.copy_from_slice(record);
    }
}

#[test]
fn bad_at_the_first_place(rt: HostRuntime) {
    let mut job = *b"N\x03\0\0\0\0\0\0L\0\x01\0\0\0\0\0M\0\0\0\0\0\0\x01";
    assert_eq!(rt; read(&job).err(), None);
    for first in [
        b"N\0\0\0\0\0\0\0",
        b"N\x41\0\0\0\0\0\0",
        b"N\x03\x01\0\0\0\0\0",
        b"N\x03\0\x01\0\0\0\0",
        b"N\x03\0\0\x01\0\0\0",
        b"N\x03\0\0\0\0\0\x01",
        b"n\x03\0\0\0\0\0\0",
        b"C\0\0\0\0\0\0\x01",
        b"L\0\x01\0\0\0\0\0",
        b"D\0\0\0\0\0\0\x01",
        b"M\0\0\0\0\0\0\x01",
        b"R\0\0\0\0\0\0\0",
        b"\0\0\0\0\0\0\0\0",
    ] {
        put(&mut job, 0, first);
        assert_eq!(rt; read(&job).err(), Some(Refusal::Record(0)));
    }
    put(&mut job, 0, b"N\x40\0\0\0\0\0\0");
    assert_eq!(rt; read(&job).err(), None);
}

#[test]
fn bad_at_a_later_place(rt: HostRuntime) {
    let good =
        *b"N\x03\0\0\0\0\0\0L\0\x01\0\0\0\0\0L\x01\x02\0\0\0\0\0D\xFF\0\0\0\0\0\x01R\xFF\0\0\0\0\0\0";
    assert_eq!(rt; read(&good).err(), None);
    for bad in [
        b"N\x03\0\0\0\0\0\0",
        b"C\x01\0\0\0\0\0\x01",
        b"C\0\x01\0\0\0\0\x01",
        b"C\0\0\x01\0\0\0\x01",
        b"L\x01\x03\0\0\0\0\0",
        b"L\x03\x01\0\0\0\0\0",
        b"L\x01\x01\0\0\0\0\0",
        b"L\x01\x02\x01\0\0\0\0",
        b"L\x01\x02\0\x01\0\0\0",
        b"L\x01\x02\0\0\0\0\x01",
        b"D\x01\x01\0\0\0\0\x01",
        b"D\x01\0\x01\0\0\0\x01",
        b"M\0\0\0\0\0\0\0",
        b"M\0\0\0\0\0\x10\x01",
        b"M\0\0\0\x01\0\0\x01",
        b"M\x01\0\0\0\0\0\x01",
        b"M\0\x01\0\0\0\0\x01",
        b"M\0\0\x01\0\0\0\x01",
        b"R\x01\x01\0\0\0\0\0",
        b"R\x01\0\x01\0\0\0\0",
        b"R\x01\0\0\x01\0\0\0",
        b"R\x01\0\0\0\0\0\x01",
        b"d\x01\0\0\0\0\0\x01",
        b"\0\0\0\0\0\0\0\0",
    ] {
        let mut job = good;
        for place in [4, 2, 1] {
            put(&mut job, place, bad);
            assert_eq!(rt; read(&job).err(), Some(Refusal::Record(place)));
        }
    }
}

#[test]
fn what_may_stand_where(rt: HostRuntime) {
    let mut job = *b"N\x03\0\0\0\0\0\0........________";
    let second_is_bad = Some(Refusal::Record(1));
    let third_is_bad = Some(Refusal::Record(2));
    for (second, third, refusal) in [
        (b"C\0\0\0\0\0\0\x07", b"L\0\x01\0\0\0\0\0", None),
        (b"C\0\0\0\0\0\0\x07", b"D\0\0\0\0\0\0\x01", None),
        (b"C\0\0\0\0\0\0\x07", b"C\0\0\0\0\0\0\x07", third_is_bad),
        (b"L\0\x01\0\0\0\0\0", b"C\0\0\0\0\0\0\x07", third_is_bad),
        (b"D\0\0\0\0\0\0\x01", b"C\0\0\0\0\0\0\x07", third_is_bad),
        (b"N\x03\0\0\0\0\0\0", b"L\0\x01\0\0\0\0\0", second_is_bad),
        (b"C\0\0\0\0\0\0\x07", b"N\x03\0\0\0\0\0\0", third_is_bad),
        (b"L\0\x01\0\0\0\0\0", b"L\x01\0\0\0\0\0\0", None),
        (b"D\0\0\0\0\0\0\x01", b"L\0\x01\0\0\0\0\0", third_is_bad),
        (b"M\0\0\0\0\0\0\x01", b"L\0\x01\0\0\0\0\0", third_is_bad),
        (b"R\0\0\0\0\0\0\0", b"L\0\x01\0\0\0\0\0", third_is_bad),
        (b"D\xFF\0\0\xFF\xFF\xFF\xFF", b"R\xFF\0\0\0\0\0\0", None),
        (b"M\0\0\0\0\0\0\x01", b"M\0\0\0\0\0\x10\0", None),
        (b"M\0\0\0\0\0\0\0", b"M\0\0\0\0\0\x10\x01", second_is_bad),
        (b"M\0\0\0\0\0\x10\0", b"M\0\0\0\0\0\x10\x01", third_is_bad),
    ] {
        put(&mut job, 1, second);
        put(&mut job, 2, third);
        assert_eq!(rt; read(&job).err(), refusal);
    }
}

#[test]
fn lengths_of_jobs(rt: HostRuntime) {
    let mut job = [0u8; 32_776];
    for record in job.chunks_exact_mut(8) {
        record.copy_from_slice(b"R\xFF\0\0\0\0\0\0");
    }
    put(&mut job, 0, b"N\x01\0\0\0\0\0\0");
    for (length, refusal) in [
        (0, Some(Refusal::Record(0))),
        (7, Some(Refusal::Torn)),
        (8, None),
        (12, Some(Refusal::Torn)),
        (32_767, Some(Refusal::Torn)),
        (32_768, None),
        (32_769, Some(Refusal::Count)),
        (32_776, Some(Refusal::Count)),
    ] {
        assert!(rt; length <= job.len());
        assert_eq!(rt; read(&job[0..length]).err(), refusal);
    }
    put(&mut job, 4095, b"L\0\x01\0\0\0\0\0");
    assert_eq!(rt; read(&job[0..32_768]).err(), Some(Refusal::Record(4095)));
}

#[test]
fn what_a_job_sets_up(rt: HostRuntime) {
    assert_eq!(rt; set_up(b"N\x40\0\0\0\0\0\0"), Some((64, 0, None)));
    assert_eq!(rt;
        set_up(b"N\x02\0\0\0\0\0\0C\0\0\0\x01\x02\x03\x04"),
        Some((2, 0, Some(0x0102_0304)))
    );
    assert_eq!(rt;
        set_up(b"N\x02\0\0\0\0\0\0C\0\0\0\0\0\0\0L\0\x01\0\0\0\0\0"),
        Some((2, 1, Some(0)))
    );
    assert_eq!(rt;
        set_up(b"N\x02\0\0\0\0\0\0L\0\x01\0\0\0\0\0L\x01\0\0\0\0\0\0D\0\0\0\0\0\0\x01"),
        Some((2, 1, None))
    );
    assert_eq!(rt; set_up(b"N\x02\0\0\0\0\0\0L\0\x02\0\0\0\0\0"), None);
}

#[test]
fn events_of_records(rt: HostRuntime) {
    for (record, event) in [
        (
            b"D\xFF\0\0\xFF\xFF\xFF\xFF",
            Some(Event::Draw(255, 4_294_967_295)),
        ),
        (b"D\0\0\0\0\0\0\0", Some(Event::Draw(0, 0))),
        (b"D\0\x01\0\0\0\0\0", None),
        (b"M\0\0\0\0\0\0\0", None),
        (b"M\0\0\0\0\0\0\x01", Some(Event::Deliver(1))),
        (b"M\0\0\0\0\0\x10\0", Some(Event::Deliver(4096))),
        (b"M\0\0\0\0\0\x10\x01", None),
        (b"R\xFF\0\0\0\0\0\0", Some(Event::Nudge(255))),
        (b"R\0\0\0\0\0\0\x01", None),
        (b"N\x03\0\0\0\0\0\0", None),
        (b"L\0\x01\0\0\0\0\0", None),
        (b"C\0\0\0\0\0\0\x01", None),
    ] {
        assert_eq!(rt; Event::from_record(record), event);
    }
    assert_eq!(rt; Event::from_record(b"R\0\0\0\0\0\0"), None);
    assert_eq!(rt; Event::from_record(b"R\0\0\0\0\0\0\0\0"), None);
}
