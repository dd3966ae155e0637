// What is printed for people: a heading, the hazards, the other matches, and the hazards' number again.
use crate::job::Job;
use crate::lines::{Line, write_line};
use crate::matches::Matches;
use crate::trouble::Stopped;
use desk::places::Place;
use search::{Match, Searching};
use std::io;
use std::io::{Stdout, Write};

// How many matches of each sort there are.
#[derive(Clone, Copy)]
struct Tally {
    hazards: u64,
    others: u64,
}

// The bytes of a match.
fn bytes_of(job: Job<'_>, found: Match) -> &[u8] {
    job.sheet.get(found.start..found.end).unwrap_or(&[])
}

fn is_hazard(job: Job<'_>, found: Match) -> bool {
    job.codes.is_hazard(bytes_of(job, found))
}

fn count_matches<S: Searching>(job: Job<'_>) -> Tally {
    let mut tally = Tally {
        hazards: 0,
        others: 0,
    };
    for found in Matches::<S>::of(job) {
        // A refusal ends the count. The pass that prints meets it again, and tells it.
        let Ok(found) = found else {
            return tally;
        };
        if is_hazard(job, found) {
            tally.hazards = tally.hazards.wrapping_add(1);
        } else {
            tally.others = tally.others.wrapping_add(1);
        }
    }
    tally
}

// What is printed of a match, the heading and the last line are put by functions and not by types with `Display`: a name or a code in them is
// bytes and no text.
fn put_match(
    line: &mut Line,
    hazard: bool,
    job: Job<'_>,
    found: Match,
    place: Place<'_>,
) -> io::Result<()> {
    if hazard {
        write!(line, "!!! HAZARD ")?;
    }
    write!(line, "line {}, column {}: ", place.line, place.column)?;
    line.put_shown(bytes_of(job, found));
    writeln!(line, " (value {})", found.value)
}

// The hazards, or the others, in the order of the search. `near` is a place before which no later match begins.
fn print_sort<S: Searching>(out: Stdout, hazards: bool, job: Job<'_>) -> Result<(), Stopped> {
    let mut line = Line::new();
    let mut near = Place::first(job.sheet);
    for found in Matches::<S>::of(job) {
        let found = found?;
        near = near.follow(found.end);
        if is_hazard(job, found) == hazards {
            put_match(&mut line, hazards, job, found, near.towards(found.start))?;
            write_line(&out, &mut line)?;
        }
    }
    Ok(())
}

// A number and what it counts. A type with `Display` would hold the same three parts, and be written out at each call.
fn put_counted(line: &mut Line, number: u64, one: &str, many: &str) -> io::Result<()> {
    let what = if number == 1 { one } else { many };
    write!(line, "{number} {what}")
}

fn put_heading(line: &mut Line, name: &[u8], tally: Tally) -> io::Result<()> {
    line.put_shown(name);
    write!(line, ": ")?;
    put_counted(line, tally.hazards, "hazard", "hazards")?;
    write!(line, ", ")?;
    put_counted(line, tally.others, "other match", "other matches")?;
    writeln!(line)
}

fn put_last(line: &mut Line, name: &[u8], hazards: u64) -> io::Result<()> {
    if hazards == 0 {
        write!(line, "No hazards in ")?;
        line.put_shown(name);
        return writeln!(line, ".");
    }
    write!(line, "!!! ")?;
    put_counted(line, hazards, "HAZARD", "HAZARDS")?;
    write!(line, " in ")?;
    line.put_shown(name);
    writeln!(line)
}

pub(crate) fn print_report<S: Searching>(
    out: Stdout,
    name: &[u8],
    job: Job<'_>,
) -> Result<(), Stopped> {
    let mut line = Line::new();
    let tally = count_matches::<S>(job);
    put_heading(&mut line, name, tally)?;
    write_line(&out, &mut line)?;
    // No match at all is said plainly.
    if tally.hazards == 0 && tally.others == 0 {
        writeln!(line, "No code of the list is in the sheet.")?;
        write_line(&out, &mut line)?;
    }
    print_sort::<S>(out, true, job)?;
    print_sort::<S>(out, false, job)?;
    put_last(&mut line, name, tally.hazards)?;
    write_line(&out, &mut line)?;
    Ok(())
}
