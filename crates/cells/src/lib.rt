// Inner: the cells of the placed states, in lent columns that are zero (the crate's `build_double_array` and `remove_invalid_checks`).
#![tactic(auto)]

ghost use Rattle.std.specs.Prelude.{◌≡◌, List, ℕ, ◌+◌, ◌*◌, ◌≤◌, ◌<◌, length};
ghost use Rattle.zeros.specs.Rows.{field};
ghost use Rattle.paper.specs.Patterns.{Entry};
ghost use Rattle.paper.specs.Automaton.{Link};
ghost use Rattle.list.specs.Limits.{alphabet, block, most_cells};
ghost use Rattle.plan.specs.Placement.{Layout};
ghost use Rattle.plan.specs.Cells as plan;
ghost use Rattle.cells.specs.Columns.{Writable, WritableSome, Blanks, Written};
ghost use Rattle.cells.specs.Writing.{group_base, own_byte, Readable, Inside, CellWritten, StatesWritten, is_spare, Spared, Block, BlocksSpared};

use list::limits::BLOCK;
use placement::cell_of;
use table::Depth;
use trie::TrieId;

// The placed automaton: its trie, and what is noted of its states. Both are read alone, so one value has them. The columns are written: in
// a struct of `&mut`s each of them would need a clause more in every contract, that its reference is still the one lent, so they come one
// by one.
#[derive(Clone, Copy)]
struct Automaton<'a> {
    trie: &'a [[u32; 5]],
    notes: &'a [[u32; 6]],
}

impl Automaton<'_> {
    // The base of a state's group, 0 for a childless state. Every child's cell is the base xor its byte, so the first child's tells it.
    fn base_of(self, s: TrieId) -> u32
        requires { Readable self.trie.now self.notes.now s.0 }
        ensures { result ≡ group_base self.entry.trie.now self.entry.notes.now s.0 }
    {
        let t = trie::first_child(self.trie, s);
        if t.0 == 0 {
            return 0;
        }
        cell_of(self.notes, t).0 ^ trie::label(self.trie, t)
    }

    // The byte that leads to a state. Root has none: its check is a spare one.
    fn byte_of(self, s: TrieId) -> u8
        requires { Readable self.trie.now self.notes.now s.0 }
        ensures { result ≡ own_byte self.entry.trie.now s.0 }
    {
        if s.0 == 0 {
            return 0;
        }
        trie::label(self.trie, s) as u8
    }
}

// The cell of a state.
fn write_state(
    automaton: Automaton<'_>,
    base: &mut [u32],
    link: &mut [u32],
    output: &mut [u32],
    check: &mut [u8],
    depth: &mut [Depth],
    s: TrieId,
)
    requires readable { Readable automaton.trie.now automaton.notes.now s.0 }
    requires inside { Inside (length base.old) (length link.old) (length output.old) (length check.old) (length depth.old) (field automaton.notes.now s.0 5) }
    ensures { CellWritten automaton.entry.trie.now automaton.entry.notes.now s.0
        base.old link.old output.old check.old depth.old
        base.new link.new output.new check.new depth.new }
{
    let i = cell_of(automaton.notes, s).0 as usize;
    let target = links::link_of(automaton.notes, s);
    let there = cell_of(automaton.notes, target);
    base[i] = automaton.base_of(s);
    link[i] = there.0;
    output[i] = outputs::place_of(automaton.notes, s);
    check[i] = automaton.byte_of(s);
    depth[i] = trie::depth(automaton.trie, s) as Depth;
}

// The cells of all states but dead.
fn write_states(
    automaton: Automaton<'_>,
    base: &mut [u32],
    link: &mut [u32],
    output: &mut [u32],
    check: &mut [u8],
    depth: &mut [Depth],
    count: u32,
)
    requires readable { (k : ℕ) → k < count → (k ≡ 1 → ⊥) → Readable automaton.trie.now automaton.notes.now k }
    requires inside { (k : ℕ) → k < count → (k ≡ 1 → ⊥)
        → Inside (length base.old) (length link.old) (length output.old) (length check.old) (length depth.old) (field automaton.notes.now k 5) }
    ensures { StatesWritten automaton.entry.trie.now automaton.entry.notes.now count
        base.old link.old output.old check.old depth.old
        base.new link.new output.new check.new depth.new }
{
    for k in 0..count {
        if k != 1 {
            write_state(automaton, base, link, output, check, depth, TrieId(k));
        }
    }
}

// Whether a cell has no byte: root's, dead's, or a vacant one.
#[tactic(auto, unfolding(crate::specs::Writing::is_spare))]
fn is_spare(spots: &[[u32; 2]], j: u32) -> bool
    requires { j < length spots.now }
    ensures { result ≡ is_spare spots.now j }
{
    j < 2 || spots::is_vacant(spots, j)
}

// The checks of a block's cells without a byte: each leads to its cell from the base that nobody has.
fn write_spare(spots: &[[u32; 2]], check: &mut [u8], from: u32, unused: u32)
    requires { Block (length spots.now) (length check.old) from unused × (from + block ≤ most_cells) }
    ensures { Spared spots.now unused from (from + block) check.old check.new }
{
    for j in from..from + BLOCK {
        if is_spare(spots, j) {
            check[j as usize] = (unused ^ j) as u8;
        }
    }
}

// The same of all blocks that have an unused base; one that has none has no cell without a byte.
fn write_spares(spots: &[[u32; 2]], check: &mut [u8], blocks: u32)
    requires { (blocks * block ≤ length spots.now) × (blocks * block ≤ length check.old) × (blocks * block ≤ most_cells) }
    ensures { BlocksSpared spots.now blocks check.old check.new }
{
    for k in 0..blocks {
        let from = k * BLOCK;
        if let Some(unused) = spots::unused_base(spots, from) {
            write_spare(spots, check, from, unused);
        }
    }
}

// All cells of the layout: what each state has in its cell, then the checks of the cells without a byte.
pub fn write_cells(
    trie: &[[u32; 5]],
    notes: &[[u32; 6]],
    spots: &[[u32; 2]],
    base: &mut [u32],
    link: &mut [u32],
    output: &mut [u32],
    check: &mut [u8],
    depth: &mut [Depth],
    states: u32,
    blocks: u32,
)
    requires { WritableSome trie.now notes.now spots.now base.old link.old output.old check.old depth.old states blocks }
    ensures { (es : List Entry) (l : Layout) (link_of : List ℕ → Link) (place_of : List ℕ → ℕ)
        → Writable es l link_of place_of trie.now notes.now spots.now states blocks
        → Blanks base.old link.old output.old check.old depth.old (blocks * block)
        → Written (plan.cells block l link_of place_of)
        base.new link.new output.new check.new depth.new
        (length base.old) (length link.old) (length output.old) (length check.old) (length depth.old) }
{
    write_states(
        Automaton { trie, notes },
        base,
        link,
        output,
        check,
        depth,
        states,
    );
    write_spares(spots, check, blocks);
}
