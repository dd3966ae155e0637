// Inner: zero to every element of the lent tables of a build, past the shortest of them too. The tables come one by one: in a struct of
// `&mut`s each of them would need a clause more in every contract, that its reference is still the one lent.
#![tactic(auto)]

ghost use Rattle.wipe.specs.Wiped.{WorkingZero, ResultsZero};

use table::Depth;
use zeros::zero_all;

pub fn wipe_working(
    trie: &mut [[u32; 5]],
    owns: &mut [[u32; 2]],
    notes: &mut [[u32; 6]],
    spots: &mut [[u32; 2]],
)
    ensures { WorkingZero trie.old owns.old notes.old spots.old
        trie.new owns.new notes.new spots.new }
{
    zero_all(trie);
    zero_all(owns);
    zero_all(notes);
    zero_all(spots);
}

pub fn wipe_results(
    base: &mut [u32],
    link: &mut [u32],
    output: &mut [u32],
    check: &mut [u8],
    depth: &mut [Depth],
    outs: &mut [[u32; 3]],
)
    ensures { ResultsZero base.old link.old output.old check.old depth.old outs.old
        base.new link.new output.new check.new depth.new outs.new }
{
    zero_all(base);
    zero_all(link);
    zero_all(output);
    zero_all(check);
    zero_all(depth);
    zero_all(outs);
}
