// Inner: the trie of the accepted patterns (the crate's `NfaBuilder::add`) in lent rows, a row for each state. Callers show that the rows
// hold the trie of some names; what a function promises holds for whatever names they are. Tables that are written come one by one: in a
// struct of `&mut`s each of them would need a clause more in every contract, that its reference is still the one lent.
#![tactic(auto)]

ghost use Rattle.std.specs.Prelude.{◌≡◌, ◌&&◌, List, [], ◌∷◌, ℕ, ◌+◌, ◌≤◌, ◌<◌, length, get_or, set};
ghost use Rattle.zeros.specs.Rows.{field};
ghost use Rattle.list.specs.Limits.{alphabet, most_bytes, most_listed};
ghost use Rattle.trie.specs.Trie.{slots_of, Trie, Inserted, with_root_and_dead, with_new, with_first, with_sibling, with_own};
ghost use Rattle.paper.specs.Patterns.{Entry, barred, rows};
ghost use Rattle.list.specs.Listed.{patterns_of};
ghost use Rattle.list.specs.Claims.{Bytes};
ghost use Rattle.trie.specs.Owned.{Owned, Covers, owns_of, owns_with};
ghost use Rattle.trie.specs.Made.{Parted, Made, MadeSome, GrewOk, grown_by, accept_on, entry};
ghost use Rattle.std.specs.Iterator.{at_most};
ghost use Rattle.trie.specs.Children.{Walks, Gives, Begun, rank};
ghost use Rattle.trie.specs.Answers.{Known, Counted, Located, AddedOk};

// A trie number: the place of a state in the order in which states were made.
#[derive(Clone, Copy, Debug, PartialEq, Eq)]
pub struct TrieId(pub u32);

// The fields of a state's row. Rows are numbers and no structs, since C lends them. Each field is read by a name of its own below: a
// reader that takes the field as a number would say less where it is called. A child, a sibling or an own output that is not there is 0 in
// the lent rows, and stays 0 (root, for a state) in what is read.
const FIRST: usize = 0;

const SIBLING: usize = 1;

const LABEL: usize = 2;

const DEPTH: usize = 3;

const OWN: usize = 4;

// The child with the lowest byte; root, which is no child, where there is none. A bound ties a state's number to a table, so no type of the
// number alone can hold it: here and below each contract says it anew.
pub fn first_child(trie: &[[u32; 5]], s: TrieId) -> TrieId
    requires { s.0 < length trie.now }
    ensures { result.0 ≡ field trie.now s.0 0 }
{
    TrieId(trie[s.0 as usize][FIRST])
}

// The child of the same parent with the next higher byte; root where there is none.
pub fn next_sibling(trie: &[[u32; 5]], s: TrieId) -> TrieId
    requires { s.0 < length trie.now }
    ensures { result.0 ≡ field trie.now s.0 1 }
{
    TrieId(trie[s.0 as usize][SIBLING])
}

// The byte that leads to a state.
pub fn label(trie: &[[u32; 5]], s: TrieId) -> u32
    requires { s.0 < length trie.now }
    ensures { result ≡ field trie.now s.0 2 }
{
    trie[s.0 as usize][LABEL]
}

// The length of a state's string.
pub fn depth(trie: &[[u32; 5]], s: TrieId) -> u32
    requires { s.0 < length trie.now }
    ensures { result ≡ field trie.now s.0 3 }
{
    trie[s.0 as usize][DEPTH]
}

// The latest own output of a state, counted from 1; 0 where it has none.
pub fn own(trie: &[[u32; 5]], s: TrieId) -> u32
    requires { s.0 < length trie.now }
    ensures { result ≡ field trie.now s.0 4 }
{
    trie[s.0 as usize][OWN]
}

// The children of a state by rising byte.
#[derive(Clone, Copy, Drop)]
pub struct Siblings<'a> {
    trie: &'a [[u32; 5]],
    // The child that comes next; root where none is left. It is the rows' own 0: an `Option` would be made at each turn and taken apart at
    // the next.
    next: TrieId,
}

impl Iterator for Siblings<'_> {
    type Item = TrieId;

    ghost can_next = { λ s. Walks s.trie.now s.next.0 };

    ghost next_gives = { λ s r t. (t.trie ≡ s.trie) × Gives s.trie.now s.next.0 r t.next.0 };

    ghost remaining = { λ s. at_most (rank alphabet (slots_of s.trie.now) s.next.0) };

    fn next(&mut self) -> Option<TrieId> {
        let child = self.next;
        if child.0 == 0 {
            return None;
        }
        self.next = next_sibling(self.trie, child);
        Some(child)
    }
}

// Callers show that the rows are a trie's, so the walk ends.
pub fn children(trie: &[[u32; 5]], s: TrieId) -> Siblings<'_>
    requires { Known trie.now s.0 }
    ensures { Begun trie.now s.0 result }
{
    Siblings {
        trie,
        next: first_child(trie, s),
    }
}

// Between which two children of a state a byte that none of them has would go; root where there is none. An
// insertion writes both back into the rows, where none is 0, so an `Option` would be taken apart there.
#[derive(Clone, Copy, Debug, PartialEq, Eq)]
pub struct Gap {
    pub prev: TrieId,
    pub next: TrieId,
}

// Where a byte stands among the children of a state.
pub fn locate(trie: &[[u32; 5]], s: TrieId, byte: u32) -> Result<TrieId, Gap>
    requires { Known trie.now s.0 × (byte < alphabet) }
    ensures { (names : List (List ℕ)) → Trie alphabet (slots_of trie.now) names → s.0 < length names → Located names s.0 byte result }
{
    let mut prev = TrieId(0);
    for t in children(trie, s) {
        let c = label(trie, t);
        if c == byte {
            return Ok(t);
        }
        if byte < c {
            return Err(Gap { prev, next: t });
        }
        prev = t;
    }
    Err(Gap {
        prev,
        next: TrieId(0),
    })
}

// The three setters below write one field each.
fn set_first(trie: &mut [[u32; 5]], s: TrieId, t: TrieId)
    requires { s.0 < length trie.old }
    ensures { trie.new ≡ with_first trie.old s.0 t.0 }
{
    trie[s.0 as usize][FIRST] = t.0;
}

fn set_sibling(trie: &mut [[u32; 5]], s: TrieId, t: TrieId)
    requires { s.0 < length trie.old }
    ensures { trie.new ≡ with_sibling trie.old s.0 t.0 }
{
    trie[s.0 as usize][SIBLING] = t.0;
}

fn set_own(trie: &mut [[u32; 5]], s: TrieId, own: u32)
    requires { s.0 < length trie.old }
    ensures { trie.new ≡ with_own trie.old s.0 own }
{
    trie[s.0 as usize][OWN] = own;
}

// A state with no child and no own output.
fn set_new(trie: &mut [[u32; 5]], n: TrieId, next: TrieId, byte: u32, depth: u32)
    requires { n.0 < length trie.old }
    ensures { trie.new ≡ with_new trie.old n.0 next.0 byte depth }
{
    trie[n.0 as usize] = [0, next.0, byte, depth, 0];
}

// A new state n, the child of s on a byte, between two of its children.
fn insert(
    trie: &mut [[u32; 5]],
    n: TrieId,
    s: TrieId,
    byte: u32,
    depth: u32,
    prev: TrieId,
    next: TrieId,
)
    requires { (n.0 < length trie.old) × (s.0 < n.0) × (prev.0 < n.0) }
    ensures { Inserted (slots_of trie.old) (slots_of trie.new) n.0 s.0 byte depth prev.0 next.0 }
{
    set_new(trie, n, next, byte, depth);
    if prev.0 == 0 {
        set_first(trie, s, n);
    } else {
        set_sibling(trie, prev, n);
    }
}

// The next state would pass the slots.
#[derive(Clone, Copy, Debug, PartialEq, Eq)]
pub struct FewStates;

// The state of a pattern, and how many states there are with those that were made for it.
#[derive(Clone, Copy)]
struct Added {
    state: TrieId,
    states: u32,
}

// The states of one pattern: those that are there, then those that are made.
fn add(trie: &mut [[u32; 5]], states: u32, slots: u32, part: &[u8]) -> Result<Added, FewStates>
    requires counted { Counted trie.old states }
    requires room { (states ≤ slots) × (slots ≤ length trie.old) × (length part.now ≤ most_bytes) }
    ensures { (names : List (List ℕ)) → Trie alphabet (slots_of trie.old) names → states ≡ length names
        → AddedOk slots (slots_of trie.old) (slots_of trie.new) names part.now result }
{
    let mut n = states;
    let mut s = TrieId(0);
    for (i, letter) in part.iter().enumerate() {
        let byte = u32::from(*letter);
        match locate(trie, s, byte) {
            Ok(t) => {
                s = t;
            }
            Err(gap) => {
                if slots <= n {
                    return Err(FewStates);
                }
                insert(trie, TrieId(n), s, byte, (i + 1) as u32, gap.prev, gap.next);
                s = TrieId(n);
                n += 1;
            }
        }
    }
    Ok(Added {
        state: s,
        states: n,
    })
}

// Whether a state before the last byte of a pattern has an own output: then LeftmostFirst drops the pattern. Nothing is written.
fn is_barred(trie: &[[u32; 5]], part: &[u8]) -> bool
    requires { Known trie.now 0 }
    ensures { (names : List (List ℕ)) (es : List Entry) → Trie alphabet (slots_of trie.now) names → Owned (slots_of trie.now) names es
        → Covers names es → result ≡ barred es part.now }
{
    let mut s = TrieId(0);
    for letter in part {
        if own(trie, s) != 0 {
            return true;
        }
        let Ok(t) = locate(trie, s, u32::from(*letter)) else {
            return false;
        };
        s = t;
    }
    false
}

// Whether a kind that drops drops this pattern. `drops`, here and below, is what the kind means to this step, not which
// step to run.
fn dropped(trie: &[[u32; 5]], drops: bool, part: &[u8]) -> bool
    requires { Known trie.now 0 }
    ensures { (names : List (List ℕ)) (es : List Entry) → Trie alphabet (slots_of trie.now) names → Owned (slots_of trie.now) names es
        → Covers names es → result ≡ (drops && barred es part.now) }
{
    drops && is_barred(trie, part)
}

// Root and dead, with no children and no own outputs.
fn begin(trie: &mut [[u32; 5]])
    requires { 2 ≤ length trie.old }
    ensures { trie.new ≡ with_root_and_dead trie.old }
{
    trie[0] = [0, 0, 0, 0, 0];
    trie[1] = [0, 0, 0, 0, 0];
}

// The own output k: its row and the one before it. Without a slot for it nothing is written.
fn note_own(owns: &mut [[u32; 2]], k: u32, row: u32, before: u32)
    ensures { owns.new ≡ owns_with owns.old k row before }
{
    let i = k as usize;
    if i < owns.len() {
        owns[i] = [row, before];
    }
}

// One more own output of a state: the pattern of this row, the k-th to be accepted. The state's slot tells it even where the output slots
// are too few, since what is dropped must not depend on them.
fn give(trie: &mut [[u32; 5]], owns: &mut [[u32; 2]], s: TrieId, row: u32, k: u32)
    requires { (s.0 < length trie.old) × (k < most_listed) }
    ensures trie_after { trie.new ≡ with_own trie.old s.0 (k + 1) }
    ensures owns_after { owns.new ≡ owns_with owns.old k row (field trie.old s.0 4) }
{
    let before = own(trie, s);
    note_own(owns, k, row, before);
    set_own(trie, s, k + 1);
}

// How many states there are, root and dead counted, and how many patterns were accepted.
#[derive(Clone, Copy, Debug, PartialEq, Eq)]
pub struct Grown {
    pub states: u32,
    pub accepted: u32,
}

// One pattern of the list: dropped, or its states and its own output.
fn add_one(
    trie: &mut [[u32; 5]],
    owns: &mut [[u32; 2]],
    drops: bool,
    grown: Grown,
    slots: u32,
    row: u32,
    part: &[u8],
) -> Result<Grown, FewStates>
    requires made_some { MadeSome trie.old owns.old grown.states grown.accepted }
    requires room { (grown.states ≤ slots) × (slots ≤ length trie.old) × (grown.accepted < most_listed) × (length part.now ≤ most_bytes) }
    ensures { (es : List Entry) → Made (slots_of trie.old) (owns_of owns.old) grown.states grown.accepted (length owns.old) es
        → GrewOk slots (slots_of trie.new) (owns_of owns.new) (length owns.old) (grown_by drops es (entry row part.now)) result }
{
    if dropped(trie, drops, part) {
        return Ok(grown);
    }
    let added = add(trie, grown.states, slots, part)?;
    give(trie, owns, added.state, row, grown.accepted);
    Ok(Grown {
        states: added.states,
        accepted: grown.accepted + 1,
    })
}

// The trie of a whole list (the crate's `NfaBuilder::add`, pattern by pattern), unless its states, root and dead counted, pass the slots.
pub fn add_all(
    drops: bool,
    bytes: &[u8],
    ends: &[u32],
    trie: &mut [[u32; 5]],
    owns: &mut [[u32; 2]],
    slots: u32,
) -> Result<Grown, FewStates>
    requires { Parted bytes.now ends.now × (slots ≤ length trie.old) }
    ensures grown { GrewOk slots (slots_of trie.new) (owns_of owns.new) (length owns.old)
        (accept_on drops [] (rows (patterns_of bytes.now ends.now))) result }
    // Of bytes in a struct a proof doesn't know that each is below 256, so they come as slices, and callers learn it from here.
    ensures letters { Bytes bytes.now }
{
    if slots < 2 {
        return Err(FewStates);
    }
    begin(trie);
    let mut grown = Grown {
        states: 2,
        accepted: 0,
    };
    for i in 0..ends.len() {
        let part = &bytes[list::pattern_start(ends, i)..list::pattern_end(ends, i)];
        grown = add_one(trie, owns, drops, grown, slots, i as u32, part)?;
    }
    Ok(grown)
}
