//! The report on a job: its map node by node with the slots planned for it, or why the job is
//! refused.
#![tactic(auto)]

ghost use Rattle.std.specs.Prelude.{◌≡◌, ◌++◌};
ghost use Rattle.report.specs.Overview.{Reported, overview};
ghost use Rattle.text.specs.Written.{written};

use map::Map;
use records::build;
use rules::NodeRule;
use schedule::check;
use text::Text;
use writing::{push_rows, sizes};

mod planning;
mod writing;

pub use planning::planned;
pub use writing::{push_totals, push_verdict};

fn describe(map: &Map) -> Text
    ensures { written result ≡ overview map.now }
{
    let slots = planned(map);
    let verdict = check(&NodeRule::new(map), &slots);
    let mut text = Text::new();
    push_rows(&mut text, map, &slots);
    push_totals(&mut text, &sizes(map), verdict);
    text
}

/// The report on a job of N and L records.
///
/// For each node by rising number a line with the node, how many neighbours and how many
/// contenders it has, and its slot, planned in rising order of the nodes; then a line "total" with
/// the numbers of nodes, of links and of contending pairs, the frame's length (the largest slot) and
/// the checker's verdict, "accepted". A job that is refused has one line, "refused" with the
/// refusal's number and, for a bad record, its index.
pub fn report(job: &[u8]) -> Text
    ensures { Reported job.now (written result) }
{
    build(job).map_or_else(Text::from, |map| describe(&map))
}
