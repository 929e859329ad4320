//! Judging the records of a job.
ghost use Rattle.std.specs.Prelude.{◌≡◌, ◌-◌, if◌then◌else◌, Some, None, MatchOption, OnSome};
ghost use Rattle.records.specs.Fits.{FirstUnfit};
ghost use Rattle.records.specs.Fields.{records, taken};
ghost use Rattle.script.specs.Script.{Reads, good};
ghost use Rattle.script.specs.Steps.{Follows, SetUp, fits};

use crate::events::seed;
use crate::{Event, Script};
use records::{Reader, check_length, joined, opened};
use refusal::Refusal;

// What a job may bring next, besides an event.
#[derive(Clone, Copy)]
enum Stage {
    // A seed or a link: so far there is only the first record.
    Second,
    // A link: no event has come.
    Links,
    // Nothing else: an event has come.
    Events,
}

// What the records read so far set up.
#[derive(Clone, Copy)]
struct Draft {
    script: Script,
    stage: Stage,
}

impl Draft {
    // Takes in one more record; `None` if it is not what its place allows.
    fn take(&mut self, bytes: &[u8]) -> Option<()>
        ensures answer { result ≡ (if fits self.old (taken bytes.now) then Some tt else None) }
        ensures after { OnSome result (Follows self.old bytes.now self.new) }
    {
        if Event::from_record(bytes).is_some() {
            self.stage = Stage::Events;
            return Some(());
        }
        match (self.stage, seed(bytes)) {
            (Stage::Events, _) => None,
            (Stage::Second, Some(seed)) => {
                self.script.seed = Some(seed);
                self.stage = Stage::Links;
                Some(())
            }
            _ => {
                self.stage = Stage::Links;
                joined(&mut self.script.map, bytes)
            }
        }
    }
}

// The script of all records, if each is good; else `None`, and the reader handed out the first bad
// one last.
fn judged(reader: &mut Reader) -> Option<Script>
    requires { reader.old.place ≡ 0 }
    ensures { MatchOption result (FirstUnfit (good reader.old.job.now) (records reader.old.job.now) (reader.new.place - 1)) (SetUp reader.old.job.now) }
{
    let first = reader.next()?;
    let map = opened(first)?;
    let mut draft = Draft {
        script: Script { map, seed: None },
        stage: Stage::Second,
    };
    // No `for`: after a `?` out of one nothing is known of how far the reader came.
    while let Some(record) = reader.next() {
        draft.take(record)?;
    }
    Some(draft.script)
}

/// Reads a job: the map and the seed that its records set up. Its events are judged as well, so that
/// each later record is C, L or an `Event`; none is performed.
///
/// Refuses by the job's length, then `Record` with the index of the first record that breaks the rules
/// or that the map refuses: N is first and only first, C second only, no L stands after an event, and
/// bytes that a letter does not use are 0. Of an empty job the index is 0.
pub fn read(job: &[u8]) -> Result<Script, Refusal>
    ensures { Reads job.now result }
{
    check_length(job)?;
    let mut reader = Reader::new(job);
    judged(&mut reader).ok_or(Refusal::Record(reader.index()))
}
