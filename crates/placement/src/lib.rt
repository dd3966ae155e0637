// Inner: each group gets its base, and each state its cell (the crate's `BuildHelper::new`), in the order of a lent table of groups.
// The tables come one by one, since most are written: in a struct of `&mut`s each would need a clause more in every contract, that its reference is
// still the one lent.
#![tactic(auto)]

ghost use Rattle.std.specs.Prelude.{◌≡◌, List, ℕ, ◌<◌, length};
ghost use Rattle.zeros.specs.Rows.{field};
ghost use Rattle.paper.specs.Patterns.{Entry};
ghost use Rattle.plan.specs.Groups.{Group};
ghost use Rattle.plan.specs.Placement.{Layout};
ghost use Rattle.spots.specs.Charted.{GroupAt};
ghost use Rattle.placement.specs.Laid.{with_cell, first_block, Placeable, PlaceableSome, PlacedAll};
ghost use Rattle.placement.specs.Seats.{Seat, SeatSome, SeatedAt, Look, LookSome, Looked, Turn, TurnSome, TurnedOk};

use list::limits::{BLOCK, WINDOW};
use table::CellId;
use trie::TrieId;

// The field of a state's notes. Rows are numbers and no structs, since C lends them.
const CELL: usize = 5;

// The lent cells, or the limit, don't suffice for the blocks of a placement.
#[derive(Clone, Copy, Debug, PartialEq, Eq)]
pub struct FewCells;

// The cell of a state. Nothing else makes a cell number of a trie number.
pub fn cell_of(notes: &[[u32; 6]], s: TrieId) -> CellId
    requires { s.0 < length notes.now }
    ensures { result.0 ≡ field notes.now s.0 5 }
{
    CellId(notes[s.0 as usize][CELL])
}

fn set_cell(notes: &mut [[u32; 6]], s: TrieId, cell: CellId)
    requires { s.0 < length notes.old }
    ensures { notes.new ≡ with_cell notes.old s.0 cell.0 }
{
    notes[s.0 as usize][CELL] = cell.0;
}

// The block at which the range begins.
fn first_block(blocks: u32) -> u32
    ensures { result ≡ first_block blocks }
{
    blocks.saturating_sub(WINDOW)
}

// The base is the group's, and each child has its cell.
fn seat(trie: &[[u32; 5]], notes: &mut [[u32; 6]], spots: &mut [[u32; 2]], s: TrieId, base: u32)
    requires { SeatSome trie.now notes.old spots.old s.0 base }
    ensures { (es : List Entry) → Seat es trie.now notes.old spots.old s.0 base
        → SeatedAt es s.0 base notes.old notes.new spots.old spots.new }
{
    spots::use_base(spots, base);
    for child in trie::children(trie, s) {
        let cell = base ^ trie::label(trie, child);
        spots::take_cell(spots, cell);
        set_cell(notes, child, CellId(cell));
    }
}

// Looks for a base in the range of so many blocks, and seats the children there.
fn look(
    trie: &[[u32; 5]],
    notes: &mut [[u32; 6]],
    spots: &mut [[u32; 2]],
    s: TrieId,
    blocks: u32,
) -> bool
    requires { LookSome trie.now notes.old spots.old s.0 blocks }
    ensures { (es : List Entry) (l : Layout) (g : Group) → Look es l trie.now notes.old spots.old s.0 blocks
        → GroupAt es s.0 g → Looked es l g s.0 notes.old notes.new spots.new result }
{
    let from = first_block(blocks) * BLOCK;
    let Some(base) = spots::find_base(trie, spots, s, from, blocks * BLOCK) else {
        return false;
    };
    seat(trie, notes, spots, s, base);
    true
}

// One group, in a block more where the range has no room. Answers how many blocks there are then.
fn place_group(
    trie: &[[u32; 5]],
    notes: &mut [[u32; 6]],
    spots: &mut [[u32; 2]],
    s: TrieId,
    blocks: u32,
    most: u32,
) -> Result<u32, FewCells>
    requires { TurnSome trie.now notes.old spots.old s.0 blocks most }
    ensures { (es : List Entry) (l : Layout) (g : Group) → Turn es l trie.now notes.old spots.old s.0 blocks most
        → GroupAt es s.0 g → TurnedOk es l g s.0 notes.old notes.new spots.new most result }
{
    if look(trie, notes, spots, s, blocks) {
        return Ok(blocks);
    }
    if most <= blocks {
        return Err(FewCells);
    }
    look(trie, notes, spots, s, blocks + 1);
    Ok(blocks + 1)
}

// All groups of the order, into spots that are zero. Answers how many blocks there are.
pub fn place_all(
    trie: &[[u32; 5]],
    notes: &mut [[u32; 6]],
    spots: &mut [[u32; 2]],
    groups: usize,
    most: u32,
) -> Result<u32, FewCells>
    requires { PlaceableSome trie.now notes.old spots.old groups most }
    ensures { (es : List Entry) (gs : List Group) → Placeable es gs trie.now notes.old spots.old groups most
        → PlacedAll es gs notes.old notes.new spots.new most result }
{
    if most < 1 {
        return Err(FewCells);
    }
    spots::take_cell(spots, 0);
    spots::take_cell(spots, 1);
    set_cell(notes, TrieId(0), CellId(0));
    set_cell(notes, TrieId(1), CellId(1));
    let mut blocks = 1;
    for i in 0..groups {
        let s = groups::group_at(notes, i);
        blocks = place_group(trie, notes, spots, s, blocks, most)?;
    }
    Ok(blocks)
}
