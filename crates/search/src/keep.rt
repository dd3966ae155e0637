// The rest of a leftmost match: the walk goes on while a longer one may come.
ghost use Rattle.std.specs.Prelude.{◌≡◌, ◌≤◌, length};
ghost use Rattle.list.specs.Limits.{most_text};
ghost use Rattle.table.specs.Agrees.{lent};
ghost use Rattle.search.specs.Bounds.{most_at};
ghost use Rattle.search.specs.Searches.{rest, keep_of};

use crate::walk::{shallow, step};
use crate::{Match, ROOT, Search, matched};
use table::{Damage, Tables};

// The match that is kept last, from a first one on, before a byte ends at root or the text ends; and where the walk stopped: at or past its end.
pub(crate) fn keep(
    tables: &Tables<'_>,
    text: &[u8],
    first: Match,
    from: Search,
) -> Result<(Match, Search), Damage>
    requires { (from.place ≤ length text.now) × (length text.now ≤ most_text) × (from.moves ≤ most_at from.place) }
    ensures { result ≡ keep_of (lent tables.now) first from (rest text.now from) }
{
    shallow(tables.depth);
    let mut kept = first;
    let mut at = from;
    // As in `seek`, the place is the value's and no count of the loop.
    while at.place < text.len() {
        at = step(true, tables, text, at)?;
        if at.state.0 == ROOT {
            return Ok((kept, at));
        }
        if let Some(row) = tables.output(at.output, at.place)? {
            kept = matched(row, at.place);
        }
    }
    Ok((kept, at))
}
