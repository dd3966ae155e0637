// The phases of a build on blank tables, in the order of their refusals: 6, 7, 8. The tables come one by one, as in
// `build`: in a struct of `&mut`s each that is written would need a clause more in every contract.
ghost use Rattle.std.specs.Prelude.{List as Numbers, ℕ, length};
ghost use Rattle.paper.specs.Patterns.{Entry, Kind as Search};
ghost use Rattle.build.specs.Lot.{lot_of};
ghost use Rattle.build.specs.Phases.{LayableSome, Layable, LaidBy, Fillable, FillableSome, Filled, Prepared, PhasesOk};

use crate::Refusal;
use crate::slots::{cell_slots, most_blocks};
use list::SoundList;
use list::limits::BLOCK;
use placement::FewCells;
use table::{Counts, Depth};

// The groups in their order, and each state's cell.
fn lay_out(
    trie: &[[u32; 5]],
    notes: &mut [[u32; 6]],
    spots: &mut [[u32; 2]],
    most: u32,
) -> Result<u32, FewCells>
    requires { LayableSome trie.now (length notes.old) spots.old most }
    ensures { (es : Numbers Entry) → Layable es trie.now (length notes.old) spots.old most
        → LaidBy es notes.old notes.new spots.new most result }
{
    let groups = groups::order_groups(trie, notes);
    placement::place_all(trie, notes, spots, groups, most)
}

// The outputs and the cells. Answers how many outputs there are.
fn fill(
    trie: &[[u32; 5]],
    owns: &[[u32; 2]],
    notes: &mut [[u32; 6]],
    spots: &[[u32; 2]],
    values: &[u32],
    base: &mut [u32],
    link: &mut [u32],
    output: &mut [u32],
    check: &mut [u8],
    depth: &mut [Depth],
    outs: &mut [[u32; 3]],
    states: u32,
    blocks: u32,
) -> u32
    requires { FillableSome values.now (lot_of trie.now owns.now notes.old spots.now
        base.old link.old output.old check.old depth.old outs.old) states blocks }
    ensures { (kind : Search) (es : Numbers Entry) → Fillable kind es values.now
        (lot_of trie.now owns.now notes.old spots.now
        base.old link.old output.old check.old depth.old outs.old) states blocks
        → Filled kind es values.now
        (lot_of trie.now owns.now notes.old spots.now
        base.old link.old output.old check.old depth.old outs.old)
        (lot_of trie.now owns.now notes.new spots.now
        base.new link.new output.new check.new depth.new outs.new) result }
{
    let stored = outputs::store_outputs(trie, owns, notes, values, outs, states);
    cells::write_cells(
        trie, notes, spots, base, link, output, check, depth, states, blocks,
    );
    stored
}

// The tables of a sound list: its trie and links, the layout of its groups, then outputs and cells.
pub(crate) fn phases(
    sound: SoundList<'_>,
    trie: &mut [[u32; 5]],
    owns: &mut [[u32; 2]],
    notes: &mut [[u32; 6]],
    spots: &mut [[u32; 2]],
    base: &mut [u32],
    link: &mut [u32],
    output: &mut [u32],
    check: &mut [u8],
    depth: &mut [Depth],
    outs: &mut [[u32; 3]],
) -> Result<Counts, Refusal>
    requires { Prepared (lot_of trie.old owns.old notes.old spots.old
        base.old link.old output.old check.old depth.old outs.old) }
    ensures { PhasesOk sound.entry.list.kind sound.entry.list.bytes.now sound.entry.list.ends.now sound.entry.list.values.now
        (lot_of trie.old owns.old notes.old spots.old
        base.old link.old output.old check.old depth.old outs.old)
        (lot_of trie.new owns.new notes.new spots.new
        base.new link.new output.new check.new depth.new outs.new) result }
{
    let grown = nfa::grow(sound, trie, owns, notes)?;
    let most = most_blocks(cell_slots(spots, base, link, output, check, depth));
    let blocks = lay_out(trie, notes, spots, most)?;
    if owns.len().min(outs.len()) < grown.accepted as usize {
        return Err(Refusal::FewOutputs);
    }
    let accepted = fill(
        trie,
        owns,
        notes,
        spots,
        sound.list.values,
        base,
        link,
        output,
        check,
        depth,
        outs,
        grown.states,
        blocks,
    );
    Ok(Counts {
        kind: sound.list.kind,
        accepted,
        states: grown.states - 1,
        cells: blocks * BLOCK,
    })
}
