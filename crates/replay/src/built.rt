// A case whose tables are built of a list, over so many lent slots of each table: the answer, and every element that was lent.
use crate::case::{Case, Sequence, Stop};
use crate::searches::compare_texts;
use build::{Refusal, build};
use list::List;
use table::{Counts, Depth, Tables};

// The room of a list. One that is a little above a limit has to fit, since its refusal is compared.
const BYTES: usize = 65600;

const LISTED: usize = 1100;

// The most slots of a table, by their sort: all that a list within the limits can need, and more than a block of cells beside, so that the
// limit of 65,536 is met before.
const STATES: usize = 65600;

const CELLS: usize = 65800;

const OUTPUTS: usize = 1100;

// What each number is before a build, so that one that is left as it was can be told from one that is made 0.
const BEFORE: u32 = 7;

// What is told of tables that were not built.
const NO_COUNTS: Counts = Counts {
    kind: 0,
    accepted: 0,
    states: 0,
    cells: 0,
};

// The working tables of a build.
#[derive(Clone, Copy)]
struct Working<'a> {
    trie: &'a [[u32; 5]],
    owns: &'a [[u32; 2]],
    notes: &'a [[u32; 6]],
    spots: &'a [[u32; 2]],
}

impl Working<'_> {
    // Nothing is recorded of them: each number is to be `rest`.
    fn judge(self, case: &mut Case<'_>, rest: u32) -> Result<(), Stop> {
        let nothing = Sequence::empty();
        case.judge_elements("trie", nothing, self.trie.as_flattened(), rest)?;
        case.judge_elements("owns", nothing, self.owns.as_flattened(), rest)?;
        case.judge_elements("notes", nothing, self.notes.as_flattened(), rest)?;
        case.judge_elements("spots", nothing, self.spots.as_flattened(), rest)
    }
}

// A refusal by its number, and the index that 4 and 5 name. The judge has its own numbers, as recorded, and takes none from `boundary`.
fn number_of(refusal: Refusal) -> (u32, u32) {
    match refusal {
        Refusal::BadKind => (1, 0),
        Refusal::BadEnds => (2, 0),
        Refusal::TooMany => (3, 0),
        Refusal::Empty(index) => (4, index),
        Refusal::TooLong(index) => (5, index),
        Refusal::FewStates => (6, 0),
        Refusal::FewCells => (7, 0),
        Refusal::FewOutputs => (8, 0),
    }
}

// What the numbers of which nothing is recorded are left as: refusals 1 to 5 leave all as it was.
fn left(built: Result<Counts, Refusal>) -> u32 {
    match built {
        Ok(_) | Err(Refusal::FewStates | Refusal::FewCells | Refusal::FewOutputs) => 0,
        Err(_) => BEFORE,
    }
}

// What the parts of an answer are called, in the order in which they are recorded.
const PARTS: &[&str] = &["refusal", "index", "kind", "accepted", "states", "cells"];

// An answer part by part: no refusal is told as 0, and a refusal has no counts.
fn parts(built: Result<Counts, Refusal>) -> [u64; 6] {
    let (refusal, index) = built.err().map_or((0, 0), number_of);
    let counts = built.unwrap_or(NO_COUNTS);
    [
        u64::from(refusal),
        u64::from(index),
        u64::from(counts.kind),
        u64::from(counts.accepted),
        u64::from(counts.states),
        u64::from(counts.cells),
    ]
}

// Holds the columns of the cells to what is recorded of them.
fn judge_columns(case: &mut Case<'_>, tables: &Tables<'_>, rest: u32) -> Result<(), Stop> {
    case.judge_column("base", tables.base, rest)?;
    case.judge_column("link", tables.link, rest)?;
    case.judge_column("output", tables.output, rest)?;
    case.judge_column("check", tables.check, rest)?;
    case.judge_column("depth", tables.depth, rest)
}

fn judge_outs(case: &mut Case<'_>, outs: &[[u32; 3]], rest: u32) -> Result<(), Stop> {
    let sequence = case.sequence();
    let numbers = outs.as_flattened();
    case.judge_elements("outs", sequence.in_rows(), numbers, rest)?;
    Ok(case.pass_sequence(sequence)?)
}

// Holds a build's answer, and then every number that was lent, to what is recorded.
fn compare_made(
    case: &mut Case<'_>,
    built: Result<Counts, Refusal>,
    working: Working<'_>,
    tables: &Tables<'_>,
    shown: bool,
) -> Result<(), Stop> {
    let due = case.take::<6>()?.map(u64::from);
    case.judge(PARTS, 0, &due, &parts(built))?;
    let rest = left(built);
    if shown {
        judge_columns(case, tables, rest)?;
    }
    working.judge(case, rest)?;
    judge_outs(case, tables.outs, rest)?;
    compare_texts(case, tables)
}

// One build. The tables are arrays, as all here, and as many slots of each are lent as are recorded.
fn compare_build(case: &mut Case<'_>, list: List<'_>, shown: bool) -> Result<(), Stop> {
    let mut trie = [[BEFORE; 5]; STATES];
    let mut owns = [[BEFORE; 2]; OUTPUTS];
    let mut notes = [[BEFORE; 6]; STATES];
    let mut spots = [[BEFORE; 2]; CELLS];
    let mut base = [BEFORE; CELLS];
    let mut link = [BEFORE; CELLS];
    let mut output = [BEFORE; CELLS];
    let mut check = [BEFORE as u8; CELLS];
    let mut depth = [BEFORE as Depth; CELLS];
    let mut outs = [[BEFORE; 3]; OUTPUTS];
    let trie = case.lend(&mut trie)?;
    let owns = case.lend(&mut owns)?;
    let notes = case.lend(&mut notes)?;
    let spots = case.lend(&mut spots)?;
    let base = case.lend(&mut base)?;
    let link = case.lend(&mut link)?;
    let output = case.lend(&mut output)?;
    let check = case.lend(&mut check)?;
    let depth = case.lend(&mut depth)?;
    let outs = case.lend(&mut outs)?;
    let built = build(
        list, trie, owns, notes, spots, base, link, output, check, depth, outs,
    );
    let working = Working {
        trie,
        owns,
        notes,
        spots,
    };
    let tables = Tables {
        base,
        link,
        output,
        check,
        depth,
        outs,
        counts: built.unwrap_or(NO_COUNTS),
    };
    compare_made(case, built, working, &tables, shown)
}

// The list as it is handed over: its ends need not cut the bytes, nor values and ends be equally many.
pub(crate) fn compare_built(case: &mut Case<'_>, shown: bool) -> Result<(), Stop> {
    let mut bytes = [0; BYTES];
    let mut ends = [0; LISTED];
    let mut values = [0; LISTED];
    let list = List {
        kind: case.number()?,
        bytes: case.column(&mut bytes)?,
        ends: case.column(&mut ends)?,
        values: case.column(&mut values)?,
    };
    compare_build(case, list, shown)
}
