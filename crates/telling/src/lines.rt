// The lines of the command, each of which is put together and written at once, and the names in them.
use desk::text::Room;
use std::io;

// The room of a word of the command line: no name of a file is longer.
pub const NAME: usize = 4096;

// The room of a line: a file's name, each byte of it shown by four, and some words.
const LINE: usize = 4 * NAME + 512;

pub type Name = Room<NAME>;

pub(crate) type Line = Room<LINE>;

// Writes a line, and begins the next.
pub(crate) fn write_line<P: Print>(stream: &P, line: &mut Line) -> io::Result<()> {
    stream.write_all(line.as_bytes())?;
    line.clear();
    Ok(())
}
