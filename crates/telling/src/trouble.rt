// Why the command prints no result, or not the whole of it: told in one line on standard error.
use crate::lines::{Line, write_line};
use desk::codes;
use desk::words::Fault;
use list::limits::MOST_LISTED;
use search::Refusal;
use std::fmt::{Display, InlineText};
use std::io;
use std::io::Write;
use std::str::Utf8Error;

// The room of the words that say why something failed.
const REASON: usize = 256;

// What is the matter with a file.
#[derive(Drop)]
pub enum Matter {
    // It cannot be used, for this reason.
    Unfit(&'static str),
    // A line of it, counted from 0, cannot be used.
    UnfitLine(usize, &'static str),
    // The system says why it cannot be had.
    Failed(io::Error),
    // The name is not text, and a file is opened by text alone.
    NotText(Utf8Error),
}

impl From<io::Error> for Matter {
    fn from(why: io::Error) -> Self {
        Matter::Failed(why)
    }
}

impl From<Utf8Error> for Matter {
    fn from(why: Utf8Error) -> Self {
        Matter::NotText(why)
    }
}

// A list that cannot be read.
impl From<codes::Fault> for Matter {
    fn from(fault: codes::Fault) -> Self {
        match fault {
            codes::Fault::BadValue(line) => Matter::UnfitLine(
                line,
                "the value before the TAB is not a number from 0 to 4294967295",
            ),
            codes::Fault::TooMany => Matter::UnfitLine(
                MOST_LISTED,
                "refusal 3: more than 1024 lines",
            ),
        }
    }
}

// A sheet that cannot be searched. 9 and 11 cannot be met here: the kind is the search's, and the tables are as the build left them.
impl From<Refusal> for Matter {
    fn from(why: Refusal) -> Self {
        Matter::Unfit(match why {
            Refusal::WrongKind => "refusal 9: the list was built for another search",
            Refusal::LongText => "refusal 10: the sheet is longer than 65536 bytes",
            Refusal::Damage => "refusal 11: the tables are damaged",
        })
    }
}

// Why a result is not printed to its end.
#[derive(Drop)]
pub(crate) enum Stopped {
    // Standard output takes no more, and why.
    Unwritten(io::Error),
    Refused(Refusal),
}

impl From<io::Error> for Stopped {
    fn from(why: io::Error) -> Self {
        Stopped::Unwritten(why)
    }
}

impl From<Refusal> for Stopped {
    fn from(why: Refusal) -> Self {
        Stopped::Refused(why)
    }
}

impl Stopped {
    // What is to be told of a sheet of this name.
    pub(crate) fn about(self, sheet: &[u8]) -> Trouble<'_> {
        match self {
            Stopped::Unwritten(why) => Trouble::Unwritten(why),
            Stopped::Refused(why) => Trouble::File(sheet, Matter::from(why)),
        }
    }
}

#[derive(Drop)]
pub enum Trouble<'a> {
    // The words of the command, with the one that is not taken, if there is such a one.
    Words(Fault, Option<&'a [u8]>),
    // A file, by its name.
    File(&'a [u8], Matter),
    // Standard output takes no more.
    Unwritten(io::Error),
}

impl Trouble<'_> {
    pub fn tell(self, rt: &HostRuntime) -> io::Result<()> {
        let mut line = Line::new();
        write!(line, "yard: ")?;
        match self {
            Trouble::Words(fault, word) => put_fault(&mut line, fault, word)?,
            Trouble::File(name, matter) => {
                line.put_shown(name);
                put_matter(&mut line, matter)?;
            }
            Trouble::Unwritten(why) => {
                write!(line, "standard output")?;
                put_reason(&mut line, why)?;
            }
        }
        writeln!(line)?;
        write_line(&rt.stderr(), &mut line)
    }
}

// The words that are not taken, and a hint. No `Display`, nor below: the word is bytes and no text, and a matter may hold a reason of the system, which
// `put_reason` shortens in a room of its own.
fn put_fault(line: &mut Line, fault: Fault, word: Option<&[u8]>) -> io::Result<()> {
    let what = match fault {
        Fault::UnknownOption => "unknown option ",
        Fault::UnknownSearch => "unknown search ",
        Fault::NoSearch => "--search wants a word: overlapping, plain, longest or first",
        Fault::OneName => "a list without a sheet: give both names or none",
        Fault::ThirdName => "a third name: ",
        Fault::LongWord => "a word of the command line is too long",
    };
    write!(line, "{what}")?;
    if let Some(word) = word {
        line.put_shown(word);
    }
    write!(line, " (yard --help tells how to ask)")
}

fn put_matter(line: &mut Line, matter: Matter) -> io::Result<()> {
    match matter {
        Matter::Unfit(what) => write!(line, ": {what}"),
        Matter::UnfitLine(number, what) => {
            let number = number.wrapping_add(1);
            write!(line, ": line {number}: {what}")
        }
        Matter::Failed(why) => put_reason(line, why),
        Matter::NotText(why) => put_reason(line, why),
    }
}

// A colon, and why something failed, without the number of the cause that std puts behind it.
fn put_reason<D: Display + Drop>(line: &mut Line, why: D) -> io::Result<()> {
    let text = InlineText::<REASON>::of(why);
    let words = text.as_str();
    let reason = match words.rsplit_once(" (os error ") {
        Some((reason, _)) => reason,
        None => words,
    };
    write!(line, ": {reason}")
}
