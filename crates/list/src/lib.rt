// Inner: the pattern list as it is lent, with its readers and refusals 1 to 5. Nothing here writes to a buffer.
#![tactic(auto)]

ghost use Rattle.std.specs.Prelude.{◌≡◌, false, ◌&&◌, List as Numbers, ℕ, ◌<◌, leb, length, IfOk};
ghost use Rattle.list.specs.Refusals.{lowest};
ghost use Rattle.list.specs.Kinds.{kind_of};
ghost use Rattle.list.specs.Listed.{patterns_of, start_of, end_of, falls, ends_wrong, sized, first_where, refusals};
ghost use Rattle.list.specs.Answers.{told, placed, Names, kind_named};
ghost use Rattle.list.specs.Claims.{Sound, SoundEnds};

pub mod limits;

use limits::{MOST_BYTES, MOST_LISTED};

// The kinds of a search.
#[derive(Clone, Copy, Debug, PartialEq, Eq)]
pub enum Kind {
    Standard,
    LeftmostLongest,
    LeftmostFirst,
}

// Why a list can't be built.
#[derive(Clone, Copy, Debug, PartialEq, Eq)]
pub enum Refusal {
    BadKind,
    BadEnds,
    TooMany,
    // The lowest index of an empty pattern.
    Empty(u32),
    // The lowest index of a pattern with too many bytes.
    TooLong(u32),
}

// A kind by its number; refusal 1 is for a number above the last.
impl TryFrom<u32> for Kind {
    type Error = Refusal;

    ghost try_from_gives = { Names };

    fn try_from(number: u32) -> Result<Kind, Refusal> {
        match number {
            0 => Ok(Kind::Standard),
            1 => Ok(Kind::LeftmostLongest),
            2 => Ok(Kind::LeftmostFirst),
            _ => Err(Refusal::BadKind),
        }
    }
}

// A pattern list: the number of its kind, the bytes of the patterns in a row, and an end and a value for each of them.
#[derive(Clone, Copy)]
pub struct List<'a> {
    pub kind: u32,
    pub bytes: &'a [u8],
    pub ends: &'a [u32],
    pub values: &'a [u32],
}

pub fn pattern_end(ends: &[u32], i: usize) -> usize
    requires { i < length ends.now }
    ensures { result ≡ end_of ends.now i }
{
    ends[i] as usize
}

pub fn pattern_start(ends: &[u32], i: usize) -> usize
    requires { i < length ends.now }
    ensures { result ≡ start_of ends.now i }
{
    if i == 0 {
        return 0;
    }
    pattern_end(ends, i - 1)
}

// An end is below the one before it, or the last end is not `count`.
fn ends_wrong(ends: &[u32], count: usize) -> bool
    ensures { result ≡ ends_wrong 0 count ends.now }
{
    let mut previous = 0;
    for end in ends {
        let end = *end as usize;
        if end < previous {
            return true;
        }
        previous = end;
    }
    previous != count
}

fn between(n: usize, least: usize, most: usize) -> bool
    ensures { result ≡ (leb least n && leb n most) }
{
    least <= n && n <= most
}

// The first pattern that has from `least` to `most` bytes. An empty one and one that is too long are both looked for here.
fn first_sized(ends: &[u32], least: usize, most: usize) -> Option<usize>
    requires { falls 0 ends.now ≡ false }
    ensures { (bytes : Numbers ℕ) → SoundEnds bytes ends.now
        → placed result ≡ first_where (sized least most) (patterns_of bytes ends.now) }
{
    for i in 0..ends.len() {
        let size = pattern_end(ends, i) - pattern_start(ends, i);
        if between(size, least, most) {
            return Some(i);
        }
    }
    None
}

// A list that is not refused, with its kind.
#[derive(Clone, Copy)]
pub struct SoundList<'a> {
    pub list: List<'a>,
    pub kind: Kind,
    pub ghost sound: { Sound list.kind list.bytes.now list.ends.now list.values.now },
    pub ghost named: { kind_named kind ≡ kind_of list.kind },
}

impl<'a> List<'a> {
    // The lowest refusal of 1 to 5 that applies, or the list as a sound one.
    pub fn check(self) -> Result<SoundList<'a>, Refusal>
        ensures told { told result ≡ lowest (refusals self.entry.kind self.entry.bytes.now self.entry.ends.now self.entry.values.now) }
        ensures list { IfOk result (λ sound. sound.list ≡ self.entry) }
    {
        let kind = Kind::try_from(self.kind)?;
        if self.ends.len() != self.values.len() {
            return Err(Refusal::BadEnds);
        }
        if ends_wrong(self.ends, self.bytes.len()) {
            return Err(Refusal::BadEnds);
        }
        if MOST_LISTED < self.ends.len() {
            return Err(Refusal::TooMany);
        }
        if let Some(i) = first_sized(self.ends, 0, 0) {
            return Err(Refusal::Empty(i as u32));
        }
        if let Some(i) = first_sized(self.ends, MOST_BYTES + 1, self.bytes.len()) {
            return Err(Refusal::TooLong(i as u32));
        }
        Ok(SoundList { list: self, kind })
    }
}
