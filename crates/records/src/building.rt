//! The map that a job of N and L records describes.
ghost use Rattle.std.specs.Prelude.{◌≡◌, if◌then◌else◌, true, false, Some, None, MatchOption, slice_index};
ghost use Rattle.map.specs.Calls.{bare, linked_up};
ghost use Rattle.map.specs.View.{net, nodes};
ghost use Rattle.records.specs.Build.{Built, joins, opens};
ghost use Rattle.records.specs.Fields.{taken};

use crate::{Reader, Record, check_length};
use map::Map;
use refusal::Refusal;

/// The map that an N record opens, with its count of nodes and no link; `None` if the bytes are no
/// such record: eight bytes, the count 1 to 64 and every other byte 0.
pub fn opened(bytes: &[u8]) -> Option<Map>
    ensures { MatchOption result (opens (taken bytes.now) ≡ false) (λ m. (opens (taken bytes.now) ≡ true) × (net m ≡ bare (slice_index bytes.now 1))) }
{
    let record = Record::take_apart(bytes)?;
    match (char::from(record.letter), record.second, record.number) {
        ('N', 0, 0) => {
            let mut map = Map::new();
            map.open(record.first).ok()?;
            Some(map)
        }
        _ => None,
    }
}

/// Adds the link of an L record, which may be there already; `None`, and the same map, if the bytes are
/// no such record (eight bytes, those past the two nodes 0), or if the map refuses the link: a node is
/// not below its count, or the two are equal.
pub fn joined(map: &mut Map, bytes: &[u8]) -> Option<()>
    ensures answer { result ≡ (if joins (nodes map.old) (taken bytes.now) then Some tt else None) }
    ensures after { MatchOption result (map.new ≡ map.old) (λ _. net map.new ≡ linked_up (net map.old) (slice_index bytes.now 1) (slice_index bytes.now 2)) }
{
    let record = Record::take_apart(bytes)?;
    match (char::from(record.letter), record.number) {
        ('L', 0) => map.link(record.first, record.second).ok(),
        _ => None,
    }
}

/// The map of a job that holds only N and L records: N first and only first, and every byte that
/// a letter does not use 0.
///
/// Refuses by the job's length, then `Record` with the index of the first record that breaks these
/// rules or that the map refuses; of an empty job, 0.
pub fn build(job: &[u8]) -> Result<Map, Refusal>
    ensures { Built job.now result }
{
    check_length(job)?;
    let mut reader = Reader::new(job);
    let mut map = reader
        .next()
        .and_then(opened)
        .ok_or(Refusal::Record(reader.index()))?;
    // No `for`: it would hold the reader, which is asked for the index.
    while let Some(record) = reader.next() {
        joined(&mut map, record).ok_or(Refusal::Record(reader.index()))?;
    }
    Ok(map)
}
