// Inner: which cells are taken and which bases are used, in lent rows, and the hunt for a group's base (the crate's `BuildHelper`). A row
// of a taken cell says how many cells from it on are taken for certain, so that the look for a vacant cell passes them at once. Cells only
// become taken, so what a row says stays true. The tables come one by one, since the rows are written: in a struct of `&mut`s each table would
// need a clause more in every contract, that its reference is still the one lent.
#![tactic(auto)]

ghost use Rattle.std.specs.Prelude.{◌≡◌, not, List, ℕ, ◌+◌, ◌≤◌, ◌<◌, eqb, length};
ghost use Rattle.zeros.specs.Rows.{field};
ghost use Rattle.paper.specs.Patterns.{Entry};
ghost use Rattle.list.specs.Limits.{block, most_cells};
ghost use Rattle.plan.specs.Groups.{Group};
ghost use Rattle.plan.specs.Placement.{Layout, first_where, fits};
ghost use Rattle.spots.specs.Charted.{with_taken, with_used, Charted, Next, Stretch, StretchSome, Seek, SeekSome, Try, TrySome, room_at, GroupAt, FoundBase, based};

use list::limits::BLOCK;
use trie::TrieId;

// The fields of a cell's row: 0 for a vacant cell, else how many cells from it on are taken; and 1 for a base that is used. Rows are
// numbers and no structs, since C lends them.
const TAKEN: usize = 0;

const USED: usize = 1;

pub fn is_vacant(spots: &[[u32; 2]], i: u32) -> bool
    requires { i < length spots.now }
    ensures { result ≡ eqb (field spots.now i 0) 0 }
{
    spots[i as usize][TAKEN] == 0
}

fn is_used(spots: &[[u32; 2]], b: u32) -> bool
    requires { b < length spots.now }
    ensures { result ≡ not (eqb (field spots.now b 1) 0) }
{
    spots[b as usize][USED] != 0
}

fn set_taken(spots: &mut [[u32; 2]], i: u32, n: u32)
    requires { i < length spots.old }
    ensures { spots.new ≡ with_taken spots.old i n }
{
    spots[i as usize][TAKEN] = n;
}

pub fn take_cell(spots: &mut [[u32; 2]], i: u32)
    requires { i < length spots.old }
    ensures { spots.new ≡ with_taken spots.old i 1 }
{
    set_taken(spots, i, 1);
}

pub fn use_base(spots: &mut [[u32; 2]], b: u32)
    requires { b < length spots.old }
    ensures { spots.new ≡ with_used spots.old b }
{
    spots[b as usize][USED] = 1;
}

// The first vacant index from `from` on, the end where there is none. What it passed is noted for the next look. A step passes a whole run,
// so no `for` over the indexes says it.
fn next_vacant(spots: &mut [[u32; 2]], from: u32, end: u32) -> u32
    requires { StretchSome spots.old from end }
    ensures { (l : Layout) → Stretch spots.old l from end → Next l from end result × Charted spots.new l }
{
    let mut i = from;
    while i < end {
        let n = spots[i as usize][TAKEN];
        if n == 0 {
            break;
        }
        i += n;
    }
    if from < i {
        set_taken(spots, from, i - from);
    }
    i
}

// Whether the cells of all children of s are vacant at this base.
fn has_room(trie: &[[u32; 5]], spots: &[[u32; 2]], s: TrieId, base: u32) -> bool
    requires { TrySome trie.now spots.now s.0 base }
    ensures { (es : List Entry) (l : Layout) → Try es l trie.now spots.now s.0 base
        → result ≡ room_at es l s.0 base }
{
    for child in trie::children(trie, s) {
        if !is_vacant(spots, base ^ trie::label(trie, child)) {
            return false;
        }
    }
    true
}

// Whether s may have the base.
fn fits(trie: &[[u32; 5]], spots: &[[u32; 2]], s: TrieId, base: u32) -> bool
    requires { TrySome trie.now spots.now s.0 base }
    ensures { (es : List Entry) (l : Layout) (g : Group) → Try es l trie.now spots.now s.0 base
        → GroupAt es s.0 g → result ≡ fits l g base }
{
    base != 0 && !is_used(spots, base) && has_room(trie, spots, s, base)
}

// The base of the first vacant index from `from` on, below `end`, whose base, the index xor the lowest child byte, s may have. The
// look for the next vacant index says how far a step goes, so no `for` says it.
pub fn find_base(
    trie: &[[u32; 5]],
    spots: &mut [[u32; 2]],
    s: TrieId,
    from: u32,
    end: u32,
) -> Option<u32>
    requires { SeekSome trie.now spots.old s.0 from end }
    ensures { (es : List Entry) (l : Layout) (g : Group) → Seek es l trie.now spots.old s.0 from end
        → GroupAt es s.0 g → FoundBase l g from end result × Charted spots.new l }
{
    let low = trie::label(trie, trie::first_child(trie, s));
    let mut i = next_vacant(spots, from, end);
    while i < end {
        let base = i ^ low;
        if fits(trie, spots, s, base) {
            return Some(base);
        }
        i = next_vacant(spots, i + 1, end);
    }
    None
}

// The smallest unused base of the block that begins at `from`.
pub fn unused_base(spots: &[[u32; 2]], from: u32) -> Option<u32>
    requires { (from + block ≤ length spots.now) × (from < most_cells) }
    ensures { based result ≡ first_where (λ (b : ℕ). eqb (field spots.now b 1) 0) from block }
{
    for b in from..from + BLOCK {
        if !is_used(spots, b) {
            return Some(b);
        }
    }
    None
}
