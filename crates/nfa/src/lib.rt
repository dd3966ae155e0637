// Inner: the trie of a list with its links (the crate's `NfaBuilder`), the automaton before its outputs are stored and its states placed.
#![tactic(auto)]

ghost use Rattle.std.specs.Prelude.{◌≡◌, ◌≤◌, ◌<◌, length};
ghost use Rattle.list.specs.Answers.{kind_named};
ghost use Rattle.list.specs.Limits.{smaller};
ghost use Rattle.list.specs.Claims.{Bytes};
ghost use Rattle.trie.specs.Made.{drops_of};
ghost use Rattle.links.specs.Linked.{is_leftmost};
ghost use Rattle.nfa.specs.Grown.{counted, GrownOk};

use list::{Kind, SoundList};
use trie::{FewStates, Grown};

// Whether a kind drops patterns that can't be found.
fn drops(kind: Kind) -> bool
    ensures { result ≡ drops_of (kind_named kind) }
{
    kind == Kind::LeftmostFirst
}

// Whether a kind stops at own outputs.
fn leftmost(kind: Kind) -> bool
    ensures { result ≡ is_leftmost (kind_named kind) }
{
    kind != Kind::Standard
}

// A number of slots as the trie counts them: no list has so many states that the bound matters.
fn count(n: usize) -> u32
    ensures { result ≡ counted n }
{
    u32::try_from(n).unwrap_or(u32::MAX)
}

// The trie of the accepted patterns and its links, unless its states pass the slots lent.
pub fn grow(
    sound: SoundList<'_>,
    trie: &mut [[u32; 5]],
    owns: &mut [[u32; 2]],
    notes: &mut [[u32; 6]],
) -> Result<Grown, FewStates>
    ensures grown { GrownOk sound.entry.list.kind sound.entry.list.bytes.now sound.entry.list.ends.now
        (smaller (length trie.old) (length notes.old)) trie.new owns.new notes.new result }
    ensures letters { Bytes sound.entry.list.bytes.now }
{
    let SoundList { list, kind } = sound;
    let slots = count(trie.len().min(notes.len()));
    let grown = trie::add_all(drops(kind), list.bytes, list.ends, trie, owns, slots)?;
    links::link_all(trie, notes, leftmost(kind));
    Ok(grown)
}
