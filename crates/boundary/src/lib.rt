// Inner: how answers cross the boundary to C: as numbers, in variables that the caller lends.
#![tactic(auto)]

ghost use Rattle.std.specs.Prelude.{◌≡◌, length};
ghost use Rattle.table.specs.Agrees.{lent};
ghost use Rattle.search.specs.Values.{number};
ghost use Rattle.sheet.specs.Sheet.{sheet_of, stop_of};
ghost use Rattle.build.specs.Outcome.{answer};
ghost use Rattle.boundary.specs.Boundary.{number_of, beside, stop_number, counts_of, held_in, SearchPromise};

use search::{Search, Searching};
use sheet::{Stop, fill};
use table::{CellId, Counts, Tables};

// The number of a build's answer: 0 for a good one, else the refusal's. C wants numbers, and nothing else crosses to it.
pub fn number_of(built: Result<Counts, build::Refusal>) -> u32
    ensures { result ≡ number_of (answer built) }
{
    match built {
        Ok(_) => 0,
        Err(build::Refusal::BadKind) => 1,
        Err(build::Refusal::BadEnds) => 2,
        Err(build::Refusal::TooMany) => 3,
        Err(build::Refusal::Empty(_)) => 4,
        Err(build::Refusal::TooLong(_)) => 5,
        Err(build::Refusal::FewStates) => 6,
        Err(build::Refusal::FewCells) => 7,
        Err(build::Refusal::FewOutputs) => 8,
    }
}

// The four numbers beside it.
pub fn beside_of(built: Result<Counts, build::Refusal>) -> [u32; 4]
    ensures { result ≡ beside (answer built) }
{
    match built {
        Ok(made) => [made.kind, made.accepted, made.states, made.cells],
        Err(build::Refusal::Empty(row) | build::Refusal::TooLong(row)) => [row, 0, 0, 0],
        Err(_) => [0; 4],
    }
}

// The number of a search's refusal.
fn refusal_number(why: search::Refusal) -> u32
    ensures { result ≡ number why }
{
    match why {
        search::Refusal::WrongKind => 9,
        search::Refusal::LongText => 10,
        search::Refusal::Damage => 11,
    }
}

// The number of a stop: 0 at the end, 1 for a full sheet, or the refusal's.
fn stop_number(stop: Stop) -> u32
    ensures { result ≡ stop_number (stop_of stop) }
{
    match stop {
        Stop::Ended => 0,
        Stop::Full => 1,
        Stop::Refused(why) => refusal_number(why),
    }
}

// What a search is told of the tables. It asks for no number of states. Of three numbers of one type a name says more than a `From` of a tuple
// would. The kind is a number as C gives it: one above 2 is lent too, and a search answers it with refusal 11.
pub fn counts_of(kind: u32, accepted: u32, cells: u32) -> Counts
    ensures { result ≡ counts_of kind accepted cells }
{
    Counts {
        kind,
        accepted,
        states: 0,
        cells,
    }
}

// A search into a sheet, from the value in the caller's variables on, for the three searches that C calls. The value and the count are handed back
// in these variables, which the C interface lends one by one; the answer is the stop's number.
pub fn search_into<S: Searching>(
    tables: &Tables<'_>,
    text: &[u8],
    state: &mut u32,
    pending: &mut u32,
    place: &mut usize,
    moves: &mut u64,
    sheet: &mut [[usize; 3]],
    written: &mut usize,
) -> u32
    ensures { SearchPromise (sheet_of S.which (lent tables.now) tables.now.counts.kind text.now (length sheet.old)
        (held_in state.old pending.old place.old moves.old)) sheet.old
        state.new pending.new place.new moves.new sheet.new written.new result }
{
    let begun = Search {
        state: CellId(*state),
        output: *pending,
        place: *place,
        moves: *moves,
    };
    let filled = fill::<S>(begun, tables, text, sheet);
    let value = filled.value;
    *state = value.state.0;
    *pending = value.output;
    *place = value.place;
    *moves = value.moves;
    *written = filled.count;
    stop_number(filled.stop)
}
