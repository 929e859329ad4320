//! Handing out the records of a job, one after another.
ghost use Rattle.std.specs.Prelude.{◌≡◌, ◌-◌, ◌≤◌, length};
ghost use Rattle.records.specs.Fields.{length_rule, records};

use refusal::Refusal;

/// How many bytes a job can have.
pub const MOST_BYTES: usize = 32_768;

/// Checks the length of a job: refuses `Count` if it has more than 32,768 bytes, then `Torn` if
/// they are no multiple of 8.
pub fn check_length(job: &[u8]) -> Result<(), Refusal>
    ensures { result ≡ length_rule (length job.now) }
{
    if job.len() > MOST_BYTES {
        return Err(Refusal::Count);
    }
    if job.len() % 8 != 0 {
        return Err(Refusal::Torn);
    }
    Ok(())
}

/// A reader over the bytes of a job, which it borrows; the records it hands out are parts of them.
#[derive(Drop)]
pub struct Reader<'a> {
    job: &'a [u8],
    /// How many records have been handed out.
    place: usize,
    // It stands no further than after the last whole record.
    pub ghost inside: { place ≤ records job.now },
}

impl<'a> Reader<'a> {
    /// A reader that stands before the first record.
    pub fn new(job: &'a [u8]) -> Reader<'a>
        ensures job { result.job.now ≡ job.now }
        ensures place { result.place ≡ 0 }
    {
        Reader { job, place: 0 }
    }

    /// The index, from 0, of the record handed out last; 0 if none was.
    pub fn index(&self) -> usize
        ensures { result ≡ self.now.place - 1 }
    {
        self.place.saturating_sub(1)
    }
}

impl<'a> Iterator for Reader<'a> {
    ghost use Rattle.std.specs.Iterator.{at_most};
    ghost use Rattle.records.specs.Reading.{Hands, left};

    type Item = &'a [u8];

    ghost next_gives = { Hands };

    ghost remaining = { λ s. at_most (left s) };

    // The next record, eight of the job's own bytes, or `None` after the last whole one. No clauses but
    // the trait's: a loop over a lent reader gets its proof from those alone.
    fn next(&mut self) -> Option<&'a [u8]> {
        let start = 8 * self.place;
        let record = self.job.get(start..start + 8)?;
        self.place += 1;
        Some(record)
    }
}
