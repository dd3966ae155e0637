// What is printed for programs: start, end and value of each match, and the moves.
use crate::job::Job;
use crate::lines::{Line, write_line};
use crate::matches::Matches;
use crate::trouble::Stopped;
use search::Searching;
use std::io::{Stdout, Write};

pub(crate) fn print_numbers<S: Searching>(out: Stdout, job: Job<'_>) -> Result<(), Stopped> {
    let mut line = Line::new();
    let mut matches = Matches::<S>::of(job);
    for found in &mut matches {
        let found = found?;
        writeln!(line, "{} {} {}", found.start, found.end, found.value)?;
        write_line(&out, &mut line)?;
    }
    writeln!(line, "moves {}", matches.value.moves)?;
    write_line(&out, &mut line)?;
    Ok(())
}
