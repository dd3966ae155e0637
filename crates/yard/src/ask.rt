// The words of the command line.
use desk::words::{Fault, Way, Wish, Word};
use std::env::{Env, FillError};
use telling::lines::{NAME, Name};
use telling::trouble::Trouble;

// A search, whether numbers are wanted, and the names of the two files.
#[derive(Drop)]
pub(crate) struct Request {
    pub way: Way,
    pub numbers: bool,
    pub list: Name,
    pub sheet: Name,
}

fn name_of(word: &[u8]) -> Name {
    let mut name = Name::new();
    name.put(word);
    name
}

// Word i, if there is such a word. It is asked for by its place, since std's `env::args` takes no word that isn't text, and such a word is told here
// like any other. It stands in the room that is lent: a room of its own for each word would cost more than all that is done with the word.
fn word_at<'a>(
    rt: &HostRuntime,
    i: usize,
    room: &'a mut [u8; NAME],
) -> Result<Option<&'a [u8]>, Fault> {
    match rt.arg(i, room) {
        Ok(size) => Ok(Some(&room[..size])),
        Err(FillError::NotPresent) => Ok(None),
        Err(FillError::TooLong) => Err(Fault::LongWord),
    }
}

// None where help is asked for and no work. Without names the files are the crew's own. The words are read into a room that is lent, so that one that is not
// taken can be told without a copy.
pub(crate) fn ask<'a>(
    rt: &HostRuntime,
    room: &'a mut [u8; NAME],
) -> Result<Option<Request>, Trouble<'a>> {
    let mut wish = Wish::first();
    let mut list = name_of(b"crew/codes.txt");
    let mut sheet = name_of(b"crew/sheet.txt");
    for i in 1..usize::MAX {
        let word = word_at(rt, i, room).map_err(|fault| Trouble::Words(fault, None))?;
        let Some(word) = word else {
            break;
        };
        match wish.take(word) {
            Ok(Word::Setting) => {}
            Ok(Word::List) => list = name_of(word),
            Ok(Word::Sheet) => sheet = name_of(word),
            Ok(Word::Help) => return Ok(None),
            Err(fault) => {
                let size = word.len();
                return Err(Trouble::Words(fault, room.get(..size)));
            }
        }
    }
    wish.end().map_err(|fault| Trouble::Words(fault, None))?;
    Ok(Some(Request {
        way: wish.way,
        numbers: wish.numbers,
        list,
        sheet,
    }))
}
