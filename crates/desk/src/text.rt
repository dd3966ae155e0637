// Bytes put together in a room of their own, as a line that is written at once, or a name; or in a line that is lent. What does not fit is left out.
ghost use Rattle.std.specs.Prelude.{◌≡◌, false, [], List, ◌++◌, ℕ, take, length, ◌≤◌};
ghost use Rattle.desk.specs.Shown.{is_control, Clean, CleanFrom};

use std::io;
use std::io::Write;
use std::marker::Model;

const BACKSLASH: u8 = b'\\';

// A name may be any bytes, where std's `InlineText` holds text alone, and a `Vec` would take memory.
#[derive(Drop)]
pub struct Room<const N: usize> {
    bytes: [u8; N],
    size: usize,
}

impl<const N: usize> Model for Room<N> {
    ghost Value = { List ℕ };

    ghost view = { λ room. take room.size room.bytes };

    ghost invariant = { λ room. room.size ≤ length room.bytes };
}

impl<const N: usize> Room<N> {
    pub fn new() -> Self
        ensures { result ≡ [] }
    {
        Room {
            bytes: [0; N],
            size: 0,
        }
    }

    pub fn clear(&mut self)
        ensures { self.new ≡ [] }
    {
        self.size = 0;
    }

    pub fn as_bytes(&self) -> &[u8]
        ensures { result.now ≡ self.now }
    {
        &self.bytes[..self.size]
    }

    // As much of the part as fits.
    pub fn put(&mut self, part: &[u8])
        ensures { self.new ≡ take N (self.old ++ part.now) }
    {
        let size = part.len().min(self.bytes.len() - self.size);
        let next = self.size + size;
        let room = &mut self.bytes[..];
        room[self.size..next].copy_from_slice(&part[..size]);
        self.size = next;
    }

    // A code or a file's name: control bytes as \xHH, so that nothing can disturb a terminal.
    pub fn put_shown(&mut self, part: &[u8])
        ensures { Clean self.old self.new }
    {
        self.size = put_shown(&mut self.bytes, self.size, part);
    }
}

// So that `write!` puts words and numbers. It never fails.
impl<const N: usize> Write for Room<N> {
    fn write(&mut self, part: &[u8]) -> io::Result<usize> {
        self.put(part);
        Ok(part.len())
    }

    fn flush(&mut self) -> io::Result<()> {
        Ok(())
    }
}

// A code or a file's name in a line that is lent, from the place where the line ends; it answers where the line ends then. A `Room` goes through it, so
// that a byte is shown in one place.
pub fn put_shown(line: &mut [u8], end: usize, part: &[u8]) -> usize
    ensures room { end ≤ length line.old → result ≤ length line.new }
    ensures shown { CleanFrom line.old line.new end result }
{
    let mut at = end;
    for byte in part {
        at = put_visible(line, at, *byte);
    }
    at
}

fn put_visible(line: &mut [u8], end: usize, byte: u8) -> usize
    ensures room { end ≤ length line.old → result ≤ length line.new }
    ensures shown { CleanFrom line.old line.new end result }
{
    if byte.is_ascii_control() {
        put_escaped(line, end, byte)
    } else {
        put_byte(line, end, byte)
    }
}

// As \xHH, by hand, as `digit` is.
fn put_escaped(line: &mut [u8], end: usize, byte: u8) -> usize
    ensures room { end ≤ length line.old → result ≤ length line.new }
    ensures shown { CleanFrom line.old line.new end result }
{
    let first = put_byte(line, end, BACKSLASH);
    let second = put_byte(line, first, b'x');
    let third = put_byte(line, second, digit(byte / 16));
    put_byte(line, third, digit(byte % 16))
}

// A place at the line's end or past it stays as it is.
fn put_byte(line: &mut [u8], end: usize, byte: u8) -> usize
    ensures room { end ≤ length line.old → result ≤ length line.new }
    ensures shown { is_control byte ≡ false → CleanFrom line.old line.new end result }
{
    if end < line.len() {
        line[end] = byte;
        end + 1
    } else {
        end
    }
}

// The digit of a number below 16. By hand, since no clause says which bytes `write!` puts into a room, and `Clean` speaks of them.
fn digit(half: u8) -> u8
    ensures { is_control result ≡ false }
{
    match half {
        0..=9 => b'0' + half,
        10..=15 => b'a' + (half - 10),
        _ => b'?',
    }
}
