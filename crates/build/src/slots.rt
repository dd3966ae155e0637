// The slots that are lent: where they lie in several slices, the shortest counts. The columns come one by one, since a build is lent them
// to write.
ghost use Rattle.std.specs.Prelude.{◌≡◌, length};
ghost use Rattle.build.specs.Lot.{cell_slots};
ghost use Rattle.build.specs.Phases.{blocks_in};

use list::limits::{BLOCK, MOST_CELLS};
use table::Depth;
use table::slots::column_slots;

pub(crate) fn cell_slots(
    spots: &[[u32; 2]],
    base: &[u32],
    link: &[u32],
    output: &[u32],
    check: &[u8],
    depth: &[Depth],
) -> usize
    ensures { result ≡ cell_slots (length spots.now) (length base.now) (length link.now)
        (length output.now) (length check.now) (length depth.now) }
{
    spots
        .len()
        .min(column_slots(base, link, output, check, depth))
}

// The blocks that the slots hold, but no more than the limit.
pub(crate) fn most_blocks(slots: usize) -> u32
    ensures { result ≡ blocks_in slots }
{
    (slots.min(MOST_CELLS) / BLOCK as usize) as u32
}
