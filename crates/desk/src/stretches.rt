// Stretches of bytes: where a byte stands first, the lines of a file, and a line without the return at its end.
ghost use Rattle.std.specs.Prelude.{◌≡◌, ◌==◌, ◌≤◌, length, position};
ghost use Rattle.std.specs.Iterator.{YieldsFirstRef, item_count};
ghost use Rattle.desk.specs.Stretches.{ahead, lines_of, bare};

pub const LINE_FEED: u8 = b'\n';

// Where such a byte stands first.
fn position_of(bytes: &[u8], byte: u8) -> Option<usize>
    ensures { result ≡ position (λ next. next == byte) bytes.now }
{
    bytes.iter().position(|next| *next == byte)
}

// How many bytes stand before the first such byte; all of them where there is none.
pub fn count_ahead(bytes: &[u8], byte: u8) -> usize
    ensures ahead { result ≡ ahead byte bytes.now }
    ensures within { result ≤ length bytes.now }
{
    position_of(bytes, byte).unwrap_or(bytes.len())
}

// The lines of a file that are left, each without the line feed that ends it.
#[derive(Clone, Copy)]
pub struct Lines<'a> {
    rest: &'a [u8],
}

impl<'a> Lines<'a> {
    pub fn of(file: &'a [u8]) -> Self
        ensures { result.rest.now ≡ file.now }
    {
        Lines { rest: file }
    }
}

impl<'a> Iterator for Lines<'a> {
    type Item = &'a [u8];

    ghost next_gives = { YieldsFirstRef (λ lines. lines_of lines.rest.now) };

    ghost remaining = { item_count (λ lines. lines_of lines.rest.now) };

    fn next(&mut self) -> Option<&'a [u8]> {
        if self.rest.is_empty() {
            return None;
        }
        let size = count_ahead(self.rest, LINE_FEED);
        let line = &self.rest[..size];
        let next = (size + 1).min(self.rest.len());
        self.rest = &self.rest[next..];
        Some(line)
    }
}

// A line without one carriage return at its end.
pub fn bare(line: &[u8]) -> &[u8]
    ensures { result.now ≡ bare line.now }
{
    line.strip_suffix(b"\r").unwrap_or(line)
}
