//! The lines of a report on a drive.
ghost use Rattle.std.specs.Prelude.{◌≡◌, ◌<◌, ◌++◌, slice_index};
ghost use Rattle.map.specs.View.{nodes};
ghost use Rattle.schedule.specs.Order.{entries};
ghost use Rattle.text.specs.Written.{clip, written};
ghost use Rattle.driven.specs.Account.{columns, rows};

use map::Map;
use std::array;
use text::Text;

/// A line for each node by rising number: the node, the drive's slot, the planner's slot.
pub(crate) fn push_rows(text: &mut Text, map: &Map, driven: &[u16; 64], planned: &[u16; 64])
    ensures { written text.new ≡ clip (written text.old ++ rows (entries driven.now) (entries planned.now) (nodes map.now)) }
{
    let rows: [[usize; 3]; 64] = array::from_fn(
        |n|
            requires { n < 64 }
            ensures { result ≡ columns n (slice_index driven.entry.now n) (slice_index planned.entry.now n) }
        { [n, usize::from(driven[n]), usize::from(planned[n])] },
    );
    text.push_rows(&rows[..usize::from(map.count())]);
}
