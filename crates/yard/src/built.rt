// What is told of a list that cannot be built.
use build::Refusal;
use telling::trouble::Matter;

// 1, 2, 6 and 8 cannot be met here: the kind is known, the ends are read in order, and the tables are ample. No `From`: both types are of other crates,
// and neither of these knows the other.
pub(crate) fn matter_of(why: Refusal) -> Matter {
    match why {
        Refusal::BadKind => Matter::Unfit("refusal 1: the kind is unknown"),
        Refusal::BadEnds => Matter::Unfit("refusal 2: the ends of the codes are wrong"),
        Refusal::TooMany => Matter::Unfit("refusal 3: more than 1024 lines"),
        Refusal::Empty(i) => Matter::UnfitLine(i as usize, "refusal 4: the code is empty"),
        Refusal::TooLong(i) => Matter::UnfitLine(
            i as usize,
            "refusal 5: the code is longer than 64 bytes",
        ),
        Refusal::FewStates => Matter::Unfit("refusal 6: the list needs too many states"),
        Refusal::FewCells => Matter::Unfit("refusal 7: the list needs more than 65536 cells"),
        Refusal::FewOutputs => Matter::Unfit("refusal 8: the list needs too many outputs"),
    }
}
