// What is told of a sheet: whether the search takes it, and then what is printed.
use crate::job::Job;
use crate::matches::Matches;
use crate::numbers::print_numbers;
use crate::report::print_report;
use crate::trouble::{Stopped, Trouble};
use desk::words::Way;
use search::{Leftmost, Overlapping, Plain, Searching};

// The first answer of the search says whether it takes the sheet. Nothing is printed before.
fn print<S: Searching>(
    rt: &HostRuntime,
    numbers: bool,
    name: &[u8],
    job: Job<'_>,
) -> Result<(), Stopped> {
    if let Some(Err(why)) = Matches::<S>::of(job).next() {
        return Err(Stopped::Refused(why));
    }
    if numbers {
        print_numbers::<S>(rt.stdout(), job)
    } else {
        print_report::<S>(rt.stdout(), name, job)
    }
}

// The sheet is told by its name. The search is a word of the command line, known only when it runs: here alone a type is made of it.
pub fn tell_all<'a>(
    rt: &HostRuntime,
    way: Way,
    numbers: bool,
    name: &'a [u8],
    job: Job<'_>,
) -> Result<(), Trouble<'a>> {
    let told = match way {
        Way::Overlapping => print::<Overlapping>(rt, numbers, name, job),
        Way::Plain => print::<Plain>(rt, numbers, name, job),
        Way::Longest | Way::First => print::<Leftmost>(rt, numbers, name, job),
    };
    told.map_err(|why| why.about(name))
}
