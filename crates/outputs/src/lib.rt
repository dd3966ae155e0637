// Inner: the outputs of the trie's states (the crate's `NfaBuilder::build_outputs`) in one lent table. Each state's own outputs are stored
// last first on the chain of the state that it links to, so a chain shows them in list order. Places count from 1; 0 is none. Tables that are
// written come one by one: in a struct of `&mut`s each of them would need a clause more in every contract, that its reference is still the
// one lent.
#![tactic(auto)]

ghost use Rattle.std.specs.Prelude.{◌≡◌, List, [], ◌∷◌, ℕ, ◌<◌, length, get_or, set};
ghost use Rattle.zeros.specs.Rows.{field};
ghost use Rattle.paper.specs.Patterns.{Entry, Kind};
ghost use Rattle.trie.specs.Owned.{owns_of, Pile};
ghost use Rattle.links.specs.Notes.{with_place};
ghost use Rattle.outputs.specs.Stacked.{Sized, Stackable, OnChain, Stacked};
ghost use Rattle.outputs.specs.Placed.{Tabled, TabledSome, Placed};

use trie::TrieId;

// The field of a state's notes, and those of an own output, each with a name of its own, as those of the trie's rows.
const PLACE: usize = 2;

const ROW: usize = 0;

const BEFORE: usize = 1;

// Where the outputs of a state begin.
pub fn place_of(notes: &[[u32; 6]], s: TrieId) -> u32
    requires { s.0 < length notes.now }
    ensures { result ≡ field notes.now s.0 2 }
{
    notes[s.0 as usize][PLACE]
}

fn set_place(notes: &mut [[u32; 6]], s: TrieId, place: u32)
    requires { s.0 < length notes.old }
    ensures { notes.new ≡ with_place notes.old s.0 place }
{
    notes[s.0 as usize][PLACE] = place;
}

// The row of an own output's pattern.
fn own_row(owns: &[[u32; 2]], k: u32) -> u32
    requires { k < length owns.now }
    ensures { result ≡ field owns.now k 0 }
{
    owns[k as usize][ROW]
}

// The own output of the same state before it, counted from 1; 0 where there is none.
fn own_before(owns: &[[u32; 2]], k: u32) -> u32
    requires { k < length owns.now }
    ensures { result ≡ field owns.now k 1 }
{
    owns[k as usize][BEFORE]
}

fn set_output(outs: &mut [[u32; 3]], n: u32, value: u32, size: u32, next: u32)
    requires { n < length outs.old }
    ensures { outs.new ≡ set outs.old n (value ∷ size ∷ next ∷ []) }
{
    outs[n as usize] = [value, size, next];
}

// How many outputs are stored, and where the chain that was stored last begins.
#[derive(Clone, Copy)]
struct Latest {
    stored: u32,
    place: u32,
}

// The own outputs of one state, the last of them first, on the chain that begins at `head`. Each names the one before it: no index is
// counted.
fn store_own(
    owns: &[[u32; 2]],
    values: &[u32],
    outs: &mut [[u32; 3]],
    first: u32,
    size: u32,
    stored: u32,
    head: u32,
) -> Latest
    requires { Stackable owns.now values.now (length outs.old) first stored }
    ensures { (n : ℕ) (own : List Entry) → Pile (owns_of owns.now) n first own → Sized size own
        → OnChain values.now own stored head outs.old outs.new result.stored result.place }
{
    let mut n = stored;
    let mut place = head;
    let mut k = first;
    while k != 0 {
        let value = values[own_row(owns, k - 1) as usize];
        set_output(outs, n, value, size, place);
        n += 1;
        place = n;
        k = own_before(owns, k - 1);
    }
    Latest { stored: n, place }
}

// One state: its own outputs on the chain of the state that it links to, and its place. The state that it links to has its own by then.
fn store_state(
    trie: &[[u32; 5]],
    owns: &[[u32; 2]],
    notes: &mut [[u32; 6]],
    values: &[u32],
    outs: &mut [[u32; 3]],
    s: TrieId,
    stored: u32,
) -> u32
    requires stackable { Stackable owns.now values.now (length outs.old) (field trie.now s.0 4) stored }
    requires state_there { (s.0 < length trie.now) × (s.0 < length notes.old) × (field notes.old s.0 1 < length notes.old) }
    ensures { (n : ℕ) (own : List Entry) → Pile (owns_of owns.now) n (field trie.now s.0 4) own
        → Sized (field trie.now s.0 3) own
        → Stacked values.now own s.0 stored notes.old notes.new
        outs.old outs.new result }
{
    let head = place_of(notes, links::link_of(notes, s));
    let latest = store_own(
        owns,
        values,
        outs,
        trie::own(trie, s),
        trie::depth(trie, s),
        stored,
        head,
    );
    set_place(notes, s, latest.place);
    latest.stored
}

// The outputs of all states over the breadth-first order, which has every state but dead; the number of outputs is the answer. Root and
// dead have no outputs: they are noted first, as states link to them.
pub fn store_outputs(
    trie: &[[u32; 5]],
    owns: &[[u32; 2]],
    notes: &mut [[u32; 6]],
    values: &[u32],
    outs: &mut [[u32; 3]],
    states: u32,
) -> u32
    requires { TabledSome trie.now owns.now notes.old values.now (length outs.old) states }
    ensures { (kind : Kind) (es : List Entry)
        → Tabled kind es trie.now owns.now notes.old values.now
        (length outs.old) states
        → Placed kind es values.now notes.old notes.new outs.old outs.new result }
{
    set_place(notes, TrieId(0), 0);
    set_place(notes, TrieId(1), 0);
    let mut stored: u32 = 0;
    for i in 0..(states - 1) as usize {
        let s = links::state_at(notes, i);
        stored = store_state(trie, owns, notes, values, outs, s, stored);
    }
    stored
}
