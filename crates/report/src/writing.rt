//! The lines of a report.
ghost use Rattle.std.specs.Prelude.{◌≡◌, ◌++◌};
ghost use Rattle.map.specs.View.{nodes};
ghost use Rattle.report.specs.Overview.{columns, contending_pairs, rows, sizes, totals, verdict_text};
ghost use Rattle.schedule.specs.Order.{entries};
ghost use Rattle.text.specs.Written.{clip, written};

use map::Map;
use refusal::Refusal;
use schedule::Verdict;
use text::Text;

// The number of pairs that contend, each counted once: each is seen from both of its ends. `Map::links`
// halves a sum too; what is summed differs, and the halving alone would be no function.
fn contending_pairs(map: &Map) -> usize
    ensures { result ≡ contending_pairs map.now }
{
    let ends: usize = (0..map.count())
        .map(|n| usize::from(map.contenders(n).len()))
        .sum();
    ends / 2
}

// The numbers of the line of node `n`: the node, its neighbours, its contenders, its slot.
fn columns(map: &Map, n: u8, slot: u16) -> [usize; 4]
    ensures { result ≡ columns map.now n slot }
{
    let neighbours = usize::from(map.degree(n));
    let contenders = usize::from(map.contenders(n).len());
    [usize::from(n), neighbours, contenders, usize::from(slot)]
}

/// A line for each node by rising number.
pub(crate) fn push_rows(text: &mut Text, map: &Map, slots: &[u16; 64])
    ensures { written text.new ≡ clip (written text.old ++ rows map.now (entries slots.now) (nodes map.now)) }
{
    for n in 0..map.count() {
        text.push_row(&columns(map, n, slots[usize::from(n)]));
    }
}

/// Writes what the checker says, each word and number after one space: the largest slot and
/// "accepted"; "clash" and the pair that clashes; or, of a table that is too short, "refused" and the
/// refusal's number.
pub fn push_verdict(text: &mut Text, verdict: Result<Verdict, Refusal>)
    ensures { written text.new ≡ clip (written text.old ++ verdict_text verdict) }
{
    match verdict {
        Ok(Verdict::Accepted(largest)) => {
            text.push_numbers(&[usize::from(largest)]);
            text.push_str(" accepted");
        }
        Ok(Verdict::Clash(pair)) => {
            text.push_str(" clash");
            text.push_numbers(&[usize::from(pair.0), usize::from(pair.1)]);
        }
        Err(refusal) => {
            text.push_str(" refused");
            text.push_numbers(&[usize::from(u8::from(refusal))]);
        }
    }
}

/// Writes the last line of a report: "total", the numbers and the verdict, each after one space.
pub fn push_totals(text: &mut Text, numbers: &[usize], verdict: Result<Verdict, Refusal>)
    ensures { written text.new ≡ clip (written text.old ++ totals numbers.now verdict) }
{
    text.push_str("total");
    text.push_numbers(numbers);
    push_verdict(text, verdict);
    text.push(b'\n');
}

/// The numbers of nodes, of links and of contending pairs.
pub(crate) fn sizes(map: &Map) -> [usize; 3]
    ensures { result ≡ sizes map.now }
{
    let nodes = usize::from(map.count());
    let links = usize::from(map.links());
    [nodes, links, contending_pairs(map)]
}
