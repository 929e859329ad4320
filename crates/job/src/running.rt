//! Running a job.
ghost use Rattle.std.specs.Prelude.{◌≡◌, ◌≤◌, [], ◌++◌, length, drop};
ghost use Rattle.records.specs.Fields.{records};
ghost use Rattle.script.specs.Script.{events};
ghost use Rattle.text.specs.Written.{written};
ghost use Rattle.job.specs.Listing.{Lists, Printed, Ran, listing};
ghost use Rattle.job.specs.Play.{PlaysOut, fresh, plays};

use crate::listing::list;
use crate::playing::play_all;
use map::Map;
use radio::{CoinRadio, RackQueue, Radio};
use refusal::Refusal;
use script::read;
use text::Text;

// Plays the events of a job, and lists what came of them.
fn play_and_list<R: Radio>(map: &Map, radio: &mut R, job: &[u8]) -> Text
    requires few { records job.now ≤ 4096 }
    requires empty { R.ways.air (R.state radio.old) ≡ [] }
    ensures law { PlaysOut R.ways map.now (events job.now) (plays R.ways map.now (events job.now) (fresh (R.state radio.old))) }
    ensures text { written result ≡ listing map.now (plays R.ways map.now (events job.now) (fresh (R.state radio.old))) }
{
    let play = play_all(map, radio, job);
    list(&play)
}

fn listed(job: &[u8]) -> Result<Text, Refusal>
    ensures { Lists job.now result }
{
    let script = read(job)?;
    Ok(match script.seed {
        Some(seed) => play_and_list(&script.map, &mut CoinRadio::new(seed), job),
        None => play_and_list(&script.map, &mut RackQueue::new(), job),
    })
}

/// The text of a job: its listing, or a line with the word "refused", the refusal's number and, for
/// a bad record, its index.
pub fn print(job: &[u8]) -> Text
    ensures { Printed job.now (written result) }
{
    listed(job).unwrap_or_else(Text::from)
}

// Copies a text to the beginning of a buffer.
fn copy(text: &Text, buffer: &mut [u8])
    requires { 1024 ≤ length buffer.old }
    ensures { buffer.new ≡ written text.now ++ drop (length (written text.now)) buffer.old }
{
    let bytes = text.as_bytes();
    buffer[..bytes.len()].copy_from_slice(bytes);
}

/// Runs a job and writes its listing to the beginning of a buffer; answers how many bytes it has.
/// The rest of the buffer stays.
///
/// Refuses `Short` if the buffer has less than 1,024 bytes; then by the job's length, and `Record`
/// with the index of the first bad record. No event of a refused job is performed, and the buffer
/// stays as it is.
pub fn run(job: &[u8], buffer: &mut [u8]) -> Result<usize, Refusal>
    ensures { Ran job.now buffer.old buffer.new result }
{
    // The buffer is the caller's, and the answer how much of it is filled, as with `Read::read`: no heap.
    if buffer.len() < Text::SPACE {
        return Err(Refusal::Short);
    }
    let text = listed(job)?;
    copy(&text, buffer);
    Ok(text.as_bytes().len())
}
