// A loading sheet: the matches of a search as records in a lent sheet, as many as it has slots, in one call. A full sheet is an answer like the end:
// the value handed back goes on from the last record. A record is start, end and value.
#![tactic(auto)]

ghost use Rattle.std.specs.Prelude.{◌≡◌, length};
ghost use Rattle.list.specs.Refusals.{lowest};
ghost use Rattle.table.specs.Agrees.{lent};
ghost use Rattle.search.specs.Searches.{is_leftmost};
ghost use Rattle.sheet.specs.Sheet.{record_of, barred, at_once, sheet_of, written, stop_of, Tells};

use list::limits::MOST_TEXT;
use search::{Answer, Match, Refusal, Search, Searching};
use table::Tables;

// Why a call stopped. A full sheet and the end are as good as a refusal is: each comes with records and a value, so none is an error here.
#[derive(Clone, Copy, PartialEq, Eq)]
pub enum Stop {
    // Every slot is written. No further match was looked for.
    Full,
    // The text has no further match.
    Ended,
    // A refusal, after the records that were written.
    Refused(Refusal),
}

// Why a call stopped, how many records it wrote, and the value to go on with.
#[derive(Clone, Copy, PartialEq, Eq)]
pub struct Filled {
    pub stop: Stop,
    pub count: usize,
    pub value: Search,
}

// A match as a record.
fn record(found: Match) -> [usize; 3]
    ensures { result ≡ record_of found }
{
    [found.start, found.end, found.value as usize]
}

// How a call with an empty sheet stops. The kind is a number, since tables of any may be lent: one that is of no kind is told where a search looks.
fn at_once<S: Searching>(kind: u32, length: usize) -> Stop
    ensures { stop_of result ≡ at_once (lowest (barred (is_leftmost S.which) kind length)) }
{
    if S::is_other(kind) {
        return Stop::Refused(Refusal::WrongKind);
    }
    if MOST_TEXT < length {
        return Stop::Refused(Refusal::LongText);
    }
    Stop::Full
}

// A search into a sheet, from its first slot.
pub fn fill<S: Searching>(
    value: Search,
    tables: &Tables<'_>,
    text: &[u8],
    sheet: &mut [[usize; 3]],
) -> Filled
    ensures tells { Tells result (sheet_of S.which (lent tables.now) tables.now.counts.kind text.now (length sheet.old) value) }
    ensures sheet_after { sheet.new ≡ written (sheet_of S.which (lent tables.now) tables.now.counts.kind text.now (length sheet.old) value) sheet.old }
{
    let slots = sheet.len();
    if slots == 0 {
        let stop = at_once::<S>(tables.counts.kind, text.len());
        return Filled {
            stop,
            count: 0,
            value,
        };
    }
    let mut at = value;
    for (count, slot) in sheet.iter_mut().enumerate() {
        match S::next(at, tables, text) {
            Answer::Match(found, next) => {
                *slot = record(found);
                at = next;
            }
            Answer::End(last) => {
                return Filled {
                    stop: Stop::Ended,
                    count,
                    value: last,
                };
            }
            Answer::Refused(why, same) => {
                return Filled {
                    stop: Stop::Refused(why),
                    count,
                    value: same,
                };
            }
        }
    }
    Filled {
        stop: Stop::Full,
        count: slots,
        value: at,
    }
}
