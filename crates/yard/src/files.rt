// A whole file, read into a room.
ghost use Rattle.std.specs.Prelude.{◌≤◌, length};

use std::fs;
use std::io::Read;
use std::str::from_utf8;
use telling::trouble::Matter;

// Reads until the room is full, the file ends or a read fails, and answers how many bytes it put there. std's `read_to_end` would take memory, and a read
// that fails would end it.
fn read_full(file: &mut fs::File, room: &mut [u8]) -> usize
    ensures { result ≤ length room.new }
{
    let mut done = 0;
    while done < room.len() {
        match file.read(&mut room[done..]) {
            Ok(0) | Err(_) => break,
            Ok(size) => done += size,
        }
    }
    done
}

// The bytes of a file, or its first ones where they fill the room: then it may go on.
pub(crate) fn read_file<'a>(
    rt: &HostRuntime,
    name: &[u8],
    room: &'a mut [u8],
) -> Result<&'a [u8], Matter> {
    let mut file = fs::File::open(rt, from_utf8(name)?)?;
    let size = read_full(&mut file, room);
    // A read that fails looks like the end of the file to `read_full`. So one more read has to say that it is the end: a folder or a failing disk must not
    // pass for a short file.
    if size < room.len() && file.read(&mut [0u8; 1])? > 0 {
        return Err(Matter::Unfit("the file cannot be read to its end"));
    }
    Ok(&room[..size])
}
