// The walk: on a byte, links are followed until a state has it or root is reached, then it is taken. The walk is most of a search's time: it is made
// part of each search, where `leftmost` is known, and that is some times as fast as a call. So `leftmost` is a constant there, and a const parameter
// would only be longer to write.
ghost use Rattle.std.specs.Prelude.{◌≡◌, ◌+◌, ◌≤◌, ◌<◌, ◌&&◌, eqb, length, get_or};
ghost use Rattle.table.specs.Agrees.{lent};
ghost use Rattle.search.specs.Walk.{take_in, begins_in, step_of};
ghost use Rattle.search.specs.Bounds.{most_before, most_moves, Shallow};

use crate::{ROOT, Search, moved};
use table::{CellId, Damage, Depth, Tables};

// Dead's cell: a leftmost link leads there where an accepted pattern has ended before.
const DEAD: u32 = 1;

// A lemma in the form of a call, with nothing to do: no depth is deep, by its type, so that a byte costs few moves.
pub(crate) fn shallow(depth: &[Depth])
    ensures { Shallow depth.now }
{}

// A byte is taken: one move.
fn byte_taken(state: CellId, moves: u64) -> (CellId, u64)
    requires { moves ≤ most_moves }
    ensures { result ≡ (state, moves + 1) }
{
    (state, moves + 1)
}

// Whether the walk is the leftmost one and has this cell for a state or a target.
fn leftmost_at(leftmost: bool, s: CellId, cell: u32) -> bool
    ensures { result ≡ (leftmost && eqb s.0 cell) }
{
    leftmost && s.0 == cell
}

// The state after a byte, and the moves. Each link is one move, and so is the byte. The links are a chain: each turn's state says which is next, so no
// `for` says it.
#[inline(always)]
pub(crate) fn take(
    leftmost: bool,
    tables: &Tables<'_>,
    from: CellId,
    byte: u8,
    count: u64,
) -> Result<(CellId, u64), Damage>
    requires { count ≤ most_before }
    ensures { result ≡ take_in leftmost (lent tables.now) from byte count }
{
    shallow(tables.depth);
    let mut s = from;
    let mut moves = count;
    loop {
        if let Some(child) = tables.probe(s, byte)? {
            return Ok(byte_taken(child, moves));
        }
        if s.0 == ROOT {
            return Ok(byte_taken(CellId(ROOT), moves));
        }
        s = tables.link(s)?;
        moves += 1;
        // The leftmost walk goes to root at a link to dead, the byte taken.
        if leftmost_at(leftmost, s, DEAD) {
            return Ok(byte_taken(CellId(ROOT), moves));
        }
    }
}

// Where the outputs begin that a walk gives at a state. A leftmost walk gives none at root: a byte that ends there ends what was kept.
fn begins(leftmost: bool, tables: &Tables<'_>, s: CellId) -> Result<Option<u32>, Damage>
    ensures { result ≡ begins_in leftmost (lent tables.now) s }
{
    if leftmost_at(leftmost, s, ROOT) {
        return Ok(None);
    }
    tables.place(s)
}

// The value after the next byte of the text. The text is read here alone.
#[inline(always)]
pub(crate) fn step(
    leftmost: bool,
    tables: &Tables<'_>,
    text: &[u8],
    at: Search,
) -> Result<Search, Damage>
    requires { (at.place < length text.now) × (at.moves ≤ most_before) }
    ensures { result ≡ step_of leftmost (lent tables.now) at (get_or text.now at.place 0) }
{
    let (state, moves) = take(leftmost, tables, at.state, text[at.place], at.moves)?;
    let output = begins(leftmost, tables, state)?.unwrap_or(0);
    Ok(moved(state, output, at.place + 1, moves))
}
