// A case whose tables are recorded, damaged as they may be, and searched as they are.
use crate::case::{Case, Stop, Unreadable};
use crate::searches::compare_texts;
use table::{Counts, Tables};

// The room of recorded tables.
const CELLS: usize = 1024;

const OUTPUTS: usize = 64;

fn recorded_counts(case: &mut Case<'_>) -> Result<Counts, Unreadable> {
    let [kind, accepted, states, cells] = case.take::<4>()?;
    Ok(Counts {
        kind,
        accepted,
        states,
        cells,
    })
}

// What is told of a column is what is lent of it.
pub(crate) fn compare_given(case: &mut Case<'_>) -> Result<(), Stop> {
    let mut base = [0; CELLS];
    let mut link = [0; CELLS];
    let mut output = [0; CELLS];
    let mut check = [0; CELLS];
    let mut depth = [0; CELLS];
    let mut outs = [[0; 3]; OUTPUTS];
    let counts = recorded_counts(case)?;
    let tables = Tables {
        base: case.column(&mut base)?,
        link: case.column(&mut link)?,
        output: case.column(&mut output)?,
        check: case.column(&mut check)?,
        depth: case.column(&mut depth)?,
        outs: case.rows(&mut outs)?,
        counts,
    };
    compare_texts(case, &tables)
}
