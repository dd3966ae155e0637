// The walk up to the next output, which all searches share.
ghost use Rattle.std.specs.Prelude.{◌≡◌, ◌≤◌, length};
ghost use Rattle.list.specs.Limits.{most_text};
ghost use Rattle.table.specs.Agrees.{lent};
ghost use Rattle.search.specs.Bounds.{most_at, Arrives};
ghost use Rattle.search.specs.Searches.{rest, seek_of};

use crate::Search;
use crate::walk::{shallow, step};
use table::{Damage, Row, Tables};

// What the walk comes to, with the value there. An Option would do for the output, but each way has the value too.
#[derive(Clone, Copy, PartialEq, Eq)]
pub(crate) enum Sought {
    Given(Row, Search),
    End(Search),
}

// From a value on: the first output that stands at the value's output place, or at that of a value after more bytes. The place is no count of the
// loop: it is the value's, which a caller gets back.
#[inline(always)]
pub(crate) fn seek(
    leftmost: bool,
    tables: &Tables<'_>,
    text: &[u8],
    from: Search,
) -> Result<Sought, Damage>
    requires { (from.place ≤ length text.now) × (length text.now ≤ most_text) × (from.moves ≤ most_at from.place) }
    ensures walked { result ≡ seek_of leftmost (lent tables.now) from (rest text.now from) }
    ensures arrives { Arrives text.now result }
{
    shallow(tables.depth);
    let mut at = from;
    loop {
        if let Some(row) = tables.output(at.output, at.place)? {
            return Ok(Sought::Given(row, at));
        }
        if text.len() <= at.place {
            return Ok(Sought::End(at));
        }
        at = step(leftmost, tables, text, at)?;
    }
}
