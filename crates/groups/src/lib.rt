// Inner: the order of the sibling groups (the crate's `sibling_groups` without weights) as a table, depth first from a stack. The notes
// are written, so they come beside the trie and not in a struct with it: of a `&mut` in a struct every contract would need a clause more,
// that it is still the reference that was lent.
#![tactic(auto)]

ghost use Rattle.std.specs.Prelude.{◌≡◌, List, ℕ, ◌<◌, length};
ghost use Rattle.zeros.specs.Rows.{field};
ghost use Rattle.paper.specs.Patterns.{Entry};
ghost use Rattle.groups.specs.Ordered.{with_group, with_stacked, Groupable, GroupableSome, Grouped};
ghost use Rattle.groups.specs.Stack.{Pushable, Pushed, PushableSome};

use trie::TrieId;

// The fields of a row of notes, each read and written by a name of its own, as those of the trie's rows.
const GROUP: usize = 3;

const STACK: usize = 4;

// The state whose group has this place in the order.
pub fn group_at(notes: &[[u32; 6]], i: usize) -> TrieId
    requires { i < length notes.now }
    ensures { result.0 ≡ field notes.now i 3 }
{
    TrieId(notes[i][GROUP])
}

fn set_group(notes: &mut [[u32; 6]], i: usize, s: TrieId)
    requires { i < length notes.old }
    ensures { notes.new ≡ with_group notes.old i s.0 }
{
    notes[i][GROUP] = s.0;
}

// The state at a height of the stack.
fn stacked(notes: &[[u32; 6]], i: usize) -> TrieId
    requires { i < length notes.now }
    ensures { result.0 ≡ field notes.now i 4 }
{
    TrieId(notes[i][STACK])
}

fn set_stacked(notes: &mut [[u32; 6]], i: usize, s: TrieId)
    requires { i < length notes.old }
    ensures { notes.new ≡ with_stacked notes.old i s.0 }
{
    notes[i][STACK] = s.0;
}

// The children of a state on the stack, by rising byte, so that the highest byte's is on top. Answers the height: the count
// is the answer too, so no `enumerate` serves.
fn push_children(trie: &[[u32; 5]], notes: &mut [[u32; 6]], s: TrieId, height: usize) -> usize
    requires { PushableSome trie.now notes.old s.0 height }
    ensures { (es : List Entry) (u : List ℕ) (stack : List (List ℕ)) → Pushable es trie.now notes.old s.0 height u stack
        → Pushed es notes.old notes.new result u stack }
{
    let mut top = height;
    for child in trie::children(trie, s) {
        set_stacked(notes, top, child);
        top += 1;
    }
    top
}

// All groups in their order. Answers how many there are. The stack lies in the lent notes, since there is no heap, and its height changes
// both ways, so that no range counts it.
pub fn order_groups(trie: &[[u32; 5]], notes: &mut [[u32; 6]]) -> usize
    requires { GroupableSome trie.now (length notes.old) }
    ensures { (es : List Entry) → Groupable es trie.now (length notes.old)
        → Grouped es notes.old notes.new result }
{
    set_stacked(notes, 0, TrieId(0));
    let mut height: usize = 1;
    let mut count: usize = 0;
    while 0 < height {
        height -= 1;
        let s = stacked(notes, height);
        if trie::first_child(trie, s).0 != 0 {
            set_group(notes, count, s);
            count += 1;
            height = push_children(trie, notes, s, height);
        }
    }
    count
}
