// Inner: the failure links of the trie's states (the crate's `build_fails` and `build_fails_leftmost`), breadth first. The
// notes are written, so they come beside the trie and not in a struct with it: of a `&mut` in a struct every contract would need a clause
// more, that it is still the reference that was lent.
#![tactic(auto)]

ghost use Rattle.std.specs.Prelude.{◌≡◌, List, [], ℕ, suc, ◌+◌, ◌≤◌, ◌<◌, length, get_or, take};
ghost use Rattle.zeros.specs.Rows.{field};
ghost use Rattle.paper.specs.Patterns.{Entry, Kind};
ghost use Rattle.list.specs.Limits.{alphabet};
ghost use Rattle.plan.specs.Names.{names};
ghost use Rattle.trie.specs.Trie.{slots_of, Trie};
ghost use Rattle.trie.specs.Answers.{Known};
ghost use Rattle.links.specs.Notes.{notes_of, with_order, with_link};
ghost use Rattle.links.specs.Linked.{Stepped, Linked, is_leftmost, ordered};
ghost use Rattle.links.specs.Queue.{Tops, Queued, Final, Noted, Ready, Turn, Poised, TurnSome, RootSome, PoisedSome, ReadySome};

use list::limits::ALPHABET;
use trie::TrieId;

// The fields of a row of notes, each read and written by a name of its own, as those of the trie's rows.
const ORDER: usize = 0;

const LINK: usize = 1;

// The state at a place of the breadth-first order.
pub fn state_at(notes: &[[u32; 6]], i: usize) -> TrieId
    requires { i < length notes.now }
    ensures { result.0 ≡ field notes.now i 0 }
{
    TrieId(notes[i][ORDER])
}

// Where a state links to.
pub fn link_of(notes: &[[u32; 6]], s: TrieId) -> TrieId
    requires { s.0 < length notes.now }
    ensures { result.0 ≡ field notes.now s.0 1 }
{
    TrieId(notes[s.0 as usize][LINK])
}

fn set_order(notes: &mut [[u32; 6]], i: usize, s: TrieId)
    requires { i < length notes.old }
    ensures { notes.new ≡ with_order notes.old i s.0 }
{
    notes[i][ORDER] = s.0;
}

fn set_link(notes: &mut [[u32; 6]], s: TrieId, t: TrieId)
    requires { s.0 < length notes.old }
    ensures { notes.new ≡ with_link notes.old s.0 t.0 }
{
    notes[s.0 as usize][LINK] = t.0;
}

// The child of a state on a byte. Root has up to 256 children, and nearly every hunt asks it, so its children stand in a table of their own,
// with 0 where there is none.
fn child(trie: &[[u32; 5]], tops: &[u32; ALPHABET], s: TrieId, byte: u32) -> Option<TrieId>
    requires { Known trie.now s.0 × (byte < alphabet) }
    ensures { (ns : List (List ℕ)) → Trie alphabet (slots_of trie.now) ns → Tops ns tops.now → s.0 < length ns
        → Stepped alphabet ns (get_or ns s.0 []) byte result }
{
    if s.0 == 0 {
        return match tops[byte as usize] {
            0 => None,
            t => Some(TrieId(t)),
        };
    }
    trie::locate(trie, s, byte).ok()
}

// Root's children by byte.
fn top_children(trie: &[[u32; 5]]) -> [u32; ALPHABET]
    requires { Known trie.now 0 }
    ensures { (ns : List (List ℕ)) → Trie alphabet (slots_of trie.now) ns → Tops ns result }
{
    let mut tops = [0; ALPHABET];
    for child in trie::children(trie, TrieId(0)) {
        tops[trie::label(trie, child) as usize] = child.0;
    }
    tops
}

// The next child of the state whose turn it is: its link is noted, and it goes to the end of the queue.
fn note_child(notes: &mut [[u32; 6]], t: TrieId, link: TrieId, end: usize)
    requires { (t.0 < length notes.old) × (end < length notes.old) }
    ensures { Noted (notes_of notes.old) (notes_of notes.new) t.0 link.0 end }
{
    set_link(notes, t, link);
    set_order(notes, end, t);
}

// Under a leftmost kind a state with an own output gets link dead, before its children are handled. `leftmost`, here and in `link_all`,
// is what the kind means to this step, not which step to run.
fn stop(trie: &[[u32; 5]], notes: &mut [[u32; 6]], leftmost: bool, s: TrieId, tail: usize)
    requires { TurnSome trie.now notes.old leftmost s.0 tail }
    ensures { (kind : Kind) (es : List Entry) (h : ℕ) → Turn kind es trie.now notes.old s.0 h tail → leftmost ≡ is_leftmost kind
        → Queued kind es (notes_of notes.new) h tail × Final kind es (notes_of notes.new) (take (suc h) (ordered es)) }
{
    if leftmost && trie::own(trie, s) != 0 {
        set_link(notes, s, TrieId(1));
    }
}

// Root's children link to root. Answers how long the queue is: the count is the answer too, here and in `link_children`, so no `enumerate`
// serves.
fn link_tops(trie: &[[u32; 5]], notes: &mut [[u32; 6]]) -> usize
    requires { RootSome trie.now notes.old }
    ensures { (kind : Kind) (es : List Entry) → Poised kind es trie.now notes.old 0 0 1
        → Queued kind es (notes_of notes.new) 1 result }
{
    let mut end: usize = 1;
    for child in trie::children(trie, TrieId(0)) {
        note_child(notes, child, TrieId(0), end);
        end += 1;
    }
    end
}

// The links of a state's children: from the parent's link the hunt stops at the first state on the chain that has the byte, at root, or at
// dead. Where the link itself is dead is looked at only after the child was tried.
fn link_children(
    trie: &[[u32; 5]],
    notes: &mut [[u32; 6]],
    tops: &[u32; ALPHABET],
    s: TrieId,
    tail: usize,
) -> usize
    requires { PoisedSome trie.now notes.old tops.now s.0 tail }
    ensures { (kind : Kind) (es : List Entry) (h : ℕ) → Poised kind es trie.now notes.old s.0 h tail
        → Tops (names alphabet es) tops.now → (s.0 ≡ 0 → ⊥) → Queued kind es (notes_of notes.new) (suc h) result }
{
    let above = link_of(notes, s);
    let mut end = tail;
    for t in trie::children(trie, s) {
        let byte = trie::label(trie, t);
        let mut f = above;
        // A chain: each turn's state says which is next. Document 01 names this form, a loop that yields by `break`.
        let link = loop {
            if f.0 == 1 {
                break TrieId(1);
            }
            if let Some(g) = child(trie, tops, f, byte) {
                break g;
            }
            if f.0 == 0 {
                break TrieId(0);
            }
            f = link_of(notes, f);
        };
        note_child(notes, t, link, end);
        end += 1;
    }
    end
}

// All links, breadth first. The queue grows while it is walked, so `head` is no index over a range that is known before.
pub fn link_all(trie: &[[u32; 5]], notes: &mut [[u32; 6]], leftmost: bool)
    requires { ReadySome trie.now (length notes.old) leftmost }
    ensures { (kind : Kind) (es : List Entry) → Ready kind es trie.now (length notes.old) → leftmost ≡ is_leftmost kind
        → Linked kind es (notes_of notes.new) }
{
    let tops = top_children(trie);
    set_order(notes, 0, TrieId(0));
    set_link(notes, TrieId(0), TrieId(0));
    let mut tail = link_tops(trie, notes);
    let mut head: usize = 1;
    while head < tail {
        let s = state_at(notes, head);
        stop(trie, notes, leftmost, s, tail);
        tail = link_children(trie, notes, &tops, s, tail);
        head += 1;
    }
}
