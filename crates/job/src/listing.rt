//! The listing of a rig in play.
ghost use Rattle.std.specs.Prelude.{◌≡◌, ◌≤◌, ◌++◌, length};
ghost use Rattle.law.specs.Law.{frame};
ghost use Rattle.map.specs.View.{nodes};
ghost use Rattle.rig.specs.Questions.{told};
ghost use Rattle.text.specs.Written.{clip, written};
ghost use Rattle.job.specs.Listing.{columns, listing, rows};
ghost use Rattle.job.specs.Stands.{shown};

use crate::playing::Play;
use refusal::Refusal;
use rig::Rig;
use text::Text;

// The numbers of the line of node `k`: the node, its slot, turn and round.
fn columns(rig: &Rig, k: u8) -> Result<[usize; 4], Refusal>
    ensures { result ≡ told rig.now k (columns k) }
{
    Ok([
        usize::from(k),
        usize::from(rig.slot(k)?),
        usize::from(rig.turn(k)?),
        usize::from(rig.round(k)?),
    ])
}

// A line for each node by rising number.
fn push_rows(text: &mut Text, rig: &Rig)
    ensures { written text.new ≡ clip (written text.old ++ rows rig.now.nodes (nodes rig.now.map)) }
{
    for k in 0..rig.map().count() {
        if let Ok(numbers) = columns(rig, k) {
            text.push_row(&numbers);
        }
    }
}

// The largest slot of a node.
fn largest(rig: &Rig) -> u16
    ensures { result ≡ frame rig.now.map rig.now.nodes }
{
    rig.slots().iter().copied().max().unwrap_or(0)
}

/// A line for each node, and the line of what was counted.
pub(crate) fn list(play: &Play) -> Text
    requires { length (listing play.now.rig.map (shown play.now)) ≤ 1024 }
    ensures { written result ≡ listing play.now.rig.map (shown play.now) }
{
    let mut text = Text::new();
    push_rows(&mut text, &play.rig);
    text.push_str("end");
    text.end_line(&[play.came, play.refused, usize::from(largest(&play.rig))]);
    text
}
