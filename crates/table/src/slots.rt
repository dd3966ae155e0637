// The slots of the cells: they lie in five slices, of which the shortest counts.
ghost use Rattle.std.specs.Prelude.{◌≡◌, length};
ghost use Rattle.table.specs.Slots.{column_slots};

use crate::Depth;

// The columns come one by one, since a build lends them to write and a search to read.
pub fn column_slots(
    base: &[u32],
    link: &[u32],
    output: &[u32],
    check: &[u8],
    depth: &[Depth],
) -> usize
    ensures { result ≡ column_slots (length base.now) (length link.now) (length output.now)
        (length check.now) (length depth.now) }
{
    base.len()
        .min(link.len())
        .min(output.len())
        .min(check.len())
        .min(depth.len())
}
