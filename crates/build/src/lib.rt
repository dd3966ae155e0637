// The tables of a pattern list: `build`, with refusals 1 to 8. All tables are lent and may hold anything. Working tables are zero again
// after a good build; nothing is changed by 1 to 5, and all is zero after 6 to 8. The ten tables come one by one, from C and from Rattle:
// in a struct of `&mut`s each of them would need a clause more in every contract, that its reference is still the one lent. For `trie` it would
// be `ensures same_trie { w.new.trie.ghost_name ≡ w.old.trie.ghost_name }`, and nine like it.
#![tactic(auto)]

ghost use Rattle.std.specs.Prelude.{◌≡◌};
ghost use Rattle.build.specs.Lot.{lot_of};
ghost use Rattle.build.specs.Promise.{Promise};

use list::{List, SoundList};
use table::{Counts, Depth};
use wipe::{wipe_results, wipe_working};

mod phases;
mod slots;

use phases::phases;

// Why there are no tables of a list.
#[derive(Clone, Copy, PartialEq, Eq)]
pub enum Refusal {
    // 1: the kind is above 2.
    BadKind,
    // 2: the counts of ends and values differ, or the ends don't cut the bytes.
    BadEnds,
    // 3: more patterns are listed than the limit.
    TooMany,
    // 4: a pattern is empty; the lowest index of such a one.
    Empty(u32),
    // 5: a pattern has more bytes than the limit; the lowest index of such a one.
    TooLong(u32),
    // 6: the states, root and dead counted, exceed the state slots.
    FewStates,
    // 7: the cells exceed the cell slots, or the limit.
    FewCells,
    // 8: the accepted patterns exceed the output slots.
    FewOutputs,
}

// A refusal of the list is the build's of that name.
impl From<list::Refusal> for Refusal {
    ghost use Rattle.build.specs.Outcome.{SameName};

    ghost from_gives = { SameName };

    fn from(why: list::Refusal) -> Refusal {
        match why {
            list::Refusal::BadKind => Refusal::BadKind,
            list::Refusal::BadEnds => Refusal::BadEnds,
            list::Refusal::TooMany => Refusal::TooMany,
            list::Refusal::Empty(i) => Refusal::Empty(i),
            list::Refusal::TooLong(i) => Refusal::TooLong(i),
        }
    }
}

impl From<trie::FewStates> for Refusal {
    ghost use Rattle.build.specs.declared.Refusal.TheVariants as why;

    ghost from_gives = { λ _ e. e ≡ why.FewStates };

    fn from(_few: trie::FewStates) -> Refusal {
        Refusal::FewStates
    }
}

impl From<placement::FewCells> for Refusal {
    ghost use Rattle.build.specs.declared.Refusal.TheVariants as why;

    ghost from_gives = { λ _ e. e ≡ why.FewCells };

    fn from(_few: placement::FewCells) -> Refusal {
        Refusal::FewCells
    }
}

// The tables of a sound list.
fn make(
    sound: SoundList<'_>,
    trie: &mut [[u32; 5]],
    owns: &mut [[u32; 2]],
    notes: &mut [[u32; 6]],
    spots: &mut [[u32; 2]],
    base: &mut [u32],
    link: &mut [u32],
    output: &mut [u32],
    check: &mut [u8],
    depth: &mut [Depth],
    outs: &mut [[u32; 3]],
) -> Result<Counts, Refusal>
    ensures { Promise sound.entry.list.kind sound.entry.list.bytes.now sound.entry.list.ends.now sound.entry.list.values.now
        (lot_of trie.old owns.old notes.old spots.old
        base.old link.old output.old check.old depth.old outs.old)
        (lot_of trie.new owns.new notes.new spots.new
        base.new link.new output.new check.new depth.new outs.new) result }
{
    zeros::zero_all(spots);
    wipe_results(base, link, output, check, depth, outs);
    let made = phases(
        sound, trie, owns, notes, spots, base, link, output, check, depth, outs,
    );
    wipe_working(trie, owns, notes, spots);
    if made.is_err() {
        wipe_results(base, link, output, check, depth, outs);
    }
    made
}

// The tables of a list, or a refusal.
pub fn build(
    list: List<'_>,
    trie: &mut [[u32; 5]],
    owns: &mut [[u32; 2]],
    notes: &mut [[u32; 6]],
    spots: &mut [[u32; 2]],
    base: &mut [u32],
    link: &mut [u32],
    output: &mut [u32],
    check: &mut [u8],
    depth: &mut [Depth],
    outs: &mut [[u32; 3]],
) -> Result<Counts, Refusal>
    ensures { Promise list.entry.kind list.entry.bytes.now list.entry.ends.now list.entry.values.now
        (lot_of trie.old owns.old notes.old spots.old
        base.old link.old output.old check.old depth.old outs.old)
        (lot_of trie.new owns.new notes.new spots.new
        base.new link.new output.new check.new depth.new outs.new) result }
{
    let sound = list.check()?;
    make(
        sound, trie, owns, notes, spots, base, link, output, check, depth, outs,
    )
}
