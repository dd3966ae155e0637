// The interface for C and for Rust: slices in, numbers out. Every table, text and sheet is lent by the caller; a slice crosses as a pointer and a
// length, a lent variable as a pointer. The functions ask for nothing. `c/rotspangle.h` declares them: C calls each search by a name of its own and lends
// its tables one by one, so the three stand here with the same parameters.
#![tactic(auto)]

ghost use Rattle.std.specs.Prelude.{◌≡◌, length};
ghost use Rattle.build.specs.Lot.{lot_of};
ghost use Rattle.table.specs.Agrees.{tables_from};
ghost use Rattle.search.specs.Values.{overlapping, plain, leftmost};
ghost use Rattle.sheet.specs.Sheet.{sheet_of};
ghost use Rattle.boundary.specs.Boundary.{BuildPromise, counts_of, held_in, SearchPromise};

use boundary::{beside_of, counts_of, number_of, search_into};
use list::List;
use search::{Leftmost, Overlapping, Plain};
use table::{Depth, Tables};

// The tables of a list: 0, or the number of a refusal.
#[unsafe(no_mangle)]
pub extern "C" fn rotspangle_build(
    kind: u32,
    bytes: &[u8],
    ends: &[u32],
    values: &[u32],
    trie: &mut [[u32; 5]],
    owns: &mut [[u32; 2]],
    notes: &mut [[u32; 6]],
    spots: &mut [[u32; 2]],
    base: &mut [u32],
    link: &mut [u32],
    output: &mut [u32],
    check: &mut [u8],
    depth: &mut [Depth],
    outs: &mut [[u32; 3]],
    counts: &mut [u32; 4],
) -> u32
    ensures { BuildPromise kind bytes.now ends.now values.now
        (lot_of trie.old owns.old notes.old spots.old
        base.old link.old output.old check.old depth.old outs.old)
        (lot_of trie.new owns.new notes.new spots.new
        base.new link.new output.new check.new depth.new outs.new) counts.new result }
{
    let list = List {
        kind,
        bytes,
        ends,
        values,
    };
    let built = build::build(
        list, trie, owns, notes, spots, base, link, output, check, depth, outs,
    );
    *counts = beside_of(built);
    number_of(built)
}

// Overlapping search into a sheet: 0 at the end, 1 for a full sheet, or the number of a refusal.
#[unsafe(no_mangle)]
pub extern "C" fn rotspangle_overlapping(
    base: &[u32],
    link: &[u32],
    output: &[u32],
    check: &[u8],
    depth: &[Depth],
    outs: &[[u32; 3]],
    kind: u32,
    accepted: u32,
    cells: u32,
    text: &[u8],
    state: &mut u32,
    pending: &mut u32,
    place: &mut usize,
    moves: &mut u64,
    sheet: &mut [[usize; 3]],
    written: &mut usize,
) -> u32
    ensures { SearchPromise (sheet_of overlapping (tables_from base.now link.now output.now check.now depth.now
        outs.now (counts_of kind accepted cells)) kind text.now (length sheet.old)
        (held_in state.old pending.old place.old moves.old)) sheet.old
        state.new pending.new place.new moves.new sheet.new written.new result }
{
    let tables = Tables {
        base,
        link,
        output,
        check,
        depth,
        outs,
        counts: counts_of(kind, accepted, cells),
    };
    search_into::<Overlapping>(&tables, text, state, pending, place, moves, sheet, written)
}

// Plain search into a sheet: 0 at the end, 1 for a full sheet, or the number of a refusal.
#[unsafe(no_mangle)]
pub extern "C" fn rotspangle_plain(
    base: &[u32],
    link: &[u32],
    output: &[u32],
    check: &[u8],
    depth: &[Depth],
    outs: &[[u32; 3]],
    kind: u32,
    accepted: u32,
    cells: u32,
    text: &[u8],
    state: &mut u32,
    pending: &mut u32,
    place: &mut usize,
    moves: &mut u64,
    sheet: &mut [[usize; 3]],
    written: &mut usize,
) -> u32
    ensures { SearchPromise (sheet_of plain (tables_from base.now link.now output.now check.now depth.now
        outs.now (counts_of kind accepted cells)) kind text.now (length sheet.old)
        (held_in state.old pending.old place.old moves.old)) sheet.old
        state.new pending.new place.new moves.new sheet.new written.new result }
{
    let tables = Tables {
        base,
        link,
        output,
        check,
        depth,
        outs,
        counts: counts_of(kind, accepted, cells),
    };
    search_into::<Plain>(&tables, text, state, pending, place, moves, sheet, written)
}

// Leftmost search into a sheet: 0 at the end, 1 for a full sheet, or the number of a refusal.
#[unsafe(no_mangle)]
pub extern "C" fn rotspangle_leftmost(
    base: &[u32],
    link: &[u32],
    output: &[u32],
    check: &[u8],
    depth: &[Depth],
    outs: &[[u32; 3]],
    kind: u32,
    accepted: u32,
    cells: u32,
    text: &[u8],
    state: &mut u32,
    pending: &mut u32,
    place: &mut usize,
    moves: &mut u64,
    sheet: &mut [[usize; 3]],
    written: &mut usize,
) -> u32
    ensures { SearchPromise (sheet_of leftmost (tables_from base.now link.now output.now check.now depth.now
        outs.now (counts_of kind accepted cells)) kind text.now (length sheet.old)
        (held_in state.old pending.old place.old moves.old)) sheet.old
        state.new pending.new place.new moves.new sheet.new written.new result }
{
    let tables = Tables {
        base,
        link,
        output,
        check,
        depth,
        outs,
        counts: counts_of(kind, accepted, cells),
    };
    search_into::<Leftmost>(&tables, text, state, pending, place, moves, sheet, written)
}
