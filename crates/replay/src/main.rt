// Holds our build and our searches to recorded answers: a case has a list that is built, or tables as they are lent, and texts that are
// searched on them. Standard input is the sample, whose head tells its notation; what agrees is counted, and what differs is told.
// It takes no memory: all that is read stands in arrays of fixed size, so that of the system it needs only to read and to write.
#![tactic(auto)]

ghost use Rattle.std.specs.Prelude.{◌≤◌, length, IfOk};

mod built;
mod case;
mod given;
mod numbers;
mod searches;
mod tally;

use built::compare_built;
use case::{Case, Stop, Unreadable};
use given::compare_given;
use numbers::Reading;
use std::convert::TryFrom;
use std::io;
use std::io::{Read, Stdin};
use tally::Tally;

// How much is asked of standard input at a time.
const PART: usize = 4096;

// What a case is, by the number that it begins with.
#[derive(Clone, Copy, Debug, PartialEq, Eq)]
enum Sort {
    // A list that is built, with its cells recorded.
    Built,
    // A list that is built, with its cells left out.
    Unseen,
    // Tables that are searched as they are.
    Given,
}

impl TryFrom<u32> for Sort {
    type Error = Unreadable;

    fn try_from(number: u32) -> Result<Sort, Unreadable> {
        match number {
            1 => Ok(Sort::Built),
            2 => Ok(Sort::Unseen),
            3 => Ok(Sort::Given),
            _ => Err(Unreadable),
        }
    }
}

fn compare_case(mut case: Case<'_>) -> Result<(), Stop> {
    match Sort::try_from(case.number()?)? {
        Sort::Built => compare_built(&mut case, true)?,
        Sort::Unseen => compare_built(&mut case, false)?,
        Sort::Given => compare_given(&mut case)?,
    }
    Ok(case.end()?)
}

// A case that cannot be read, or that has more numbers than were asked for, is a difference like any other.
fn tell(stop: Stop, tally: &mut Tally) -> io::Result<()> {
    match stop {
        Stop::Unreadable => tally.tell_unreadable(),
        Stop::Io(error) => Err(error),
    }
}

fn run_case(reading: &Reading, tally: &mut Tally) -> io::Result<()> {
    tally.begin_case();
    match compare_case(reading.case(tally)) {
        Ok(()) => Ok(()),
        Err(stop) => tell(stop, tally),
    }
}

// Runs each case that ends within a part of the input.
fn run_part(part: &[u8], reading: &mut Reading, tally: &mut Tally) -> Result<(), Stop> {
    for byte in part {
        if reading.take(*byte)? {
            run_case(reading, tally)?;
            reading.begin_case();
        }
    }
    Ok(())
}

// Reads until the part is full or the input ends, and answers how many bytes it put there. std's `read_to_end` would take memory.
fn read_full(input: &mut Stdin, part: &mut [u8]) -> io::Result<usize>
    ensures { IfOk result (λ size. size ≤ length part.new) }
{
    let mut done = 0;
    while done < part.len() {
        let size = input.read(&mut part[done..])?;
        if size == 0 {
            break;
        }
        done += size;
    }
    Ok(done)
}

// Runs each case, up to the end of the input or to what is not in the notation. It is read in parts by hand, since a `BufReader` would take
// memory. A proved loop has to end, and nothing says that an input does: so the parts are counted, up to a number that no run comes to.
fn run(mut input: Stdin, tally: &mut Tally) -> Result<(), Stop> {
    let mut reading = Reading::new();
    let mut part = [0; PART];
    for _ in 0..u64::MAX {
        let size = read_full(&mut input, &mut part)?;
        if size == 0 {
            break;
        }
        run_part(&part[..size], &mut reading, tally)?;
    }
    Ok(reading.end()?)
}

fn main(rt: HostRuntime) -> io::Result<()> {
    let mut tally = Tally::new(rt.stdout());
    if let Err(stop) = run(rt.stdin(), &mut tally) {
        tally.begin_case();
        tell(stop, &mut tally)?;
    }
    tally.report()
}
