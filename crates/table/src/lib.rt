// The tables that a search reads, by their readers. Each reader asks nothing: on any tables and any numbers it answers, or it tells damage.
// A search needs nothing else of the tables.
#![tactic(auto)]

ghost use Rattle.std.specs.Prelude.{◌≡◌, length};
ghost use Rattle.table.specs.Readers.{there, can_end};
ghost use Rattle.table.specs.Agrees.{lent, probe_in, link_in, place_in, output_in};

pub mod slots;

// The fields of an output. It is a row of numbers and no struct, since a build is lent its outputs so by C (`rotspangle_build`).
const VALUE: usize = 0;

const LENGTH: usize = 1;

const NEXT: usize = 2;

// A cell's number. A trie number is another type, so that the two can't be mixed.
#[derive(Clone, Copy, PartialEq, Eq)]
pub struct CellId(pub u32);

// A state's depth, stored in its cell. Its width is named here alone: no definition and no proof knows it.
pub type Depth = u8;

// What a good build says of its tables, and a search is told: the kind, and how many patterns were accepted, states made and cells used. The
// states count root and not dead. The kind is a number, since a caller may lend tables of one that no search is for.
#[derive(Clone, Copy, PartialEq, Eq)]
pub struct Counts {
    pub kind: u32,
    pub accepted: u32,
    pub states: u32,
    pub cells: u32,
}

// Something that is needed isn't there, or can't be right.
#[derive(Clone, Copy, PartialEq, Eq)]
pub struct Damage;

// An output: the value and the length of its pattern, and the place of the next output, 0 for none. C lends the places so, and a row of any
// numbers may be lent: `output` says of a place whether one stands there.
#[derive(Clone, Copy, PartialEq, Eq)]
pub struct Row {
    pub value: u32,
    pub length: u32,
    pub next: u32,
}

// The tables as a search is lent them: five columns of cells, the rows of the outputs, and what the build said of them. C lends the columns, one
// slice a field, so a cell is no struct.
#[derive(Clone, Copy)]
pub struct Tables<'a> {
    pub base: &'a [u32],
    pub link: &'a [u32],
    pub output: &'a [u32],
    pub check: &'a [u8],
    pub depth: &'a [Depth],
    pub outs: &'a [[u32; 3]],
    pub counts: Counts,
}

// Whether cell i is there, in a column with so many slots.
fn is_there(cells: u32, slots: usize, i: u32) -> bool
    ensures { result ≡ there cells slots i }
{
    i < cells && (i as usize) < slots
}

// Whether a match of this length can end there: it has a byte, and it begins in the text.
fn can_end(length: u32, end: usize) -> bool
    ensures { result ≡ can_end length end }
{
    0 < length && (length as usize) <= end
}

impl Tables<'_> {
    // The child of a state on a byte.
    #[tactic(auto, unfolding(crate::specs::Readers::probe_of))]
    pub fn probe(&self, s: CellId, byte: u8) -> Result<Option<CellId>, Damage>
        ensures { result ≡ probe_in (lent self.now) s.0 byte }
    {
        let cells = self.counts.cells;
        if is_there(cells, self.base.len(), s.0) {
            let b = self.base[s.0 as usize];
            if b == 0 {
                return Ok(None);
            }
            let t = b ^ u32::from(byte);
            if is_there(cells, self.check.len(), t) {
                if self.check[t as usize] == byte {
                    return Ok(Some(CellId(t)));
                }
                return Ok(None);
            }
        }
        Err(Damage)
    }

    // The state that a state links to. Its depth is smaller, so that a walk along links ends on any tables.
    #[tactic(auto, unfolding(crate::specs::Readers::link_of))]
    pub fn link(&self, s: CellId) -> Result<CellId, Damage>
        ensures { result ≡ link_in (lent self.now) s.0 }
    {
        let cells = self.counts.cells;
        if is_there(cells, self.link.len(), s.0) && is_there(cells, self.depth.len(), s.0) {
            let t = self.link[s.0 as usize];
            if is_there(cells, self.depth.len(), t)
                && self.depth[t as usize] < self.depth[s.0 as usize]
            {
                return Ok(CellId(t));
            }
        }
        Err(Damage)
    }

    // Where the outputs of a state begin, if it has any. Places count from 1. Whether an output stands there is judged where it is read.
    #[tactic(auto, unfolding(crate::specs::Readers::place_of))]
    pub fn place(&self, s: CellId) -> Result<Option<u32>, Damage>
        ensures { result ≡ place_in (lent self.now) s.0 }
    {
        if is_there(self.counts.cells, self.output.len(), s.0) {
            let p = self.output[s.0 as usize];
            if p == 0 {
                return Ok(None);
            }
            return Ok(Some(p));
        }
        Err(Damage)
    }

    // The output at a place, for a match that ends at `end`. It is tested whole; the next place is smaller, so that a chain ends on any tables.
    #[tactic(auto, unfolding(crate::specs::Readers::output_of))]
    pub fn output(&self, place: u32, end: usize) -> Result<Option<Row>, Damage>
        ensures { result ≡ output_in (lent self.now) place end }
    {
        if place == 0 {
            return Ok(None);
        }
        let i = place - 1;
        if is_there(self.counts.accepted, self.outs.len(), i) {
            let row = self.outs[i as usize];
            if row[NEXT] < place && can_end(row[LENGTH], end) {
                return Ok(Some(Row {
                    value: row[VALUE],
                    length: row[LENGTH],
                    next: row[NEXT],
                }));
            }
        }
        Err(Damage)
    }
}
