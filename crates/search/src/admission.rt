// What is tested first in each call: refusals 9 and 10, then the damage that the kind, the counts and the search value show by themselves.
ghost use Rattle.std.specs.Prelude.{◌≡◌, ◌≤◌};
ghost use Rattle.list.specs.Limits.{most_text};
ghost use Rattle.list.specs.Refusals.{lowest};
ghost use Rattle.table.specs.Agrees.{lent};
ghost use Rattle.search.specs.Admission.{other_kind, counts_broken, value_broken, at_first, told};

use crate::{Refusal, Search};
use list::limits::{LAST_KIND, MOST_TEXT};
use table::slots::column_slots;
use table::{Counts, Tables};

// Whether tables of this kind are for another search: for a standard one than the leftmost, or the other way round. Which search a kind is for is asked
// here alone. It is a number: any may be given, and one that is of no kind is for no other search; `admit` tells it as damage, refusal 11.
pub(crate) fn is_other(leftmost: bool, kind: u32) -> bool
    ensures { result ≡ other_kind leftmost kind }
{
    if leftmost {
        kind == 0
    } else {
        kind != 0 && kind <= LAST_KIND
    }
}

// Whether the tables lack room for what they are said to hold.
fn counts_broken(tables: &Tables<'_>) -> bool
    ensures { result ≡ counts_broken (lent tables.now) }
{
    tables.outs.len() < tables.counts.accepted as usize
        || column_slots(
            tables.base,
            tables.link,
            tables.output,
            tables.check,
            tables.depth,
        ) < tables.counts.cells as usize
}

// Whether no search of a text of this length could have come to the value.
fn value_broken(counts: Counts, length: usize, value: Search) -> bool
    requires { length ≤ most_text }
    ensures { result ≡ value_broken counts.cells counts.accepted length value }
{
    counts.cells <= value.state.0
        || counts.accepted < value.output
        || length < value.place
        || 2 * (value.place as u64) < value.moves
}

// A refusal with a lower number goes before damage.
pub(crate) fn admit(
    leftmost: bool,
    tables: &Tables<'_>,
    length: usize,
    value: Search,
) -> Result<(), Refusal>
    ensures { told result ≡ lowest (at_first leftmost (lent tables.now) tables.now.counts.kind length value) }
{
    if is_other(leftmost, tables.counts.kind) {
        return Err(Refusal::WrongKind);
    }
    if MOST_TEXT < length {
        return Err(Refusal::LongText);
    }
    if LAST_KIND < tables.counts.kind
        || counts_broken(tables)
        || value_broken(tables.counts, length, value)
    {
        return Err(Refusal::Damage);
    }
    Ok(())
}
