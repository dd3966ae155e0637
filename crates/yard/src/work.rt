// From the two files to the tables and what the search says of them.
ghost use Rattle.std.specs.Prelude.{◌≤◌, length};

use crate::ask::Request;
use crate::built::matter_of;
use crate::files::read_file;
use desk::codes::{Codes, read_codes};
use desk::words::Way;
use list::limits::{MOST_BYTES, MOST_CELLS, MOST_LISTED, MOST_TEXT};
use list::{Kind, List};
use table::{Depth, Tables};
use telling::Job;
use telling::tell::tell_all;
use telling::trouble::{Matter, Trouble};

// The room of a list. One that fills it is too long.
const LIST: usize = 131072;

// The room of a sheet: one byte more than a search takes. The search refuses a sheet that fills it, after the refusals of the list.
const SHEET: usize = MOST_TEXT + 1;

// As many as a list may have.
const LISTED: usize = MOST_LISTED;

// The room of the tables is ample for every list within the limits: with root and dead it has at most two states more than bytes.
const STATES: usize = MOST_LISTED * MOST_BYTES + 2;

const CELLS: usize = MOST_CELLS;

const OUTPUTS: usize = MOST_LISTED;

// The kind of the tables that a search wants.
fn kind_of(way: Way) -> Kind {
    match way {
        Way::Overlapping | Way::Plain => Kind::Standard,
        Way::Longest => Kind::LeftmostLongest,
        Way::First => Kind::LeftmostFirst,
    }
}

// What the asked search says of the sheet, by tables that are built of the codes. The tables are some 4 MiB of this function's frame. It, `work` and
// `run` keep frames of their own: in that of `main` all their rooms would be asked of the stack even to print the help or to tell a missing file.
#[inline(never)]
fn build_and_tell<'a, 's>(
    rt: &HostRuntime,
    request: &'a Request,
    codes: Codes<'s>,
    sheet: &'s [u8],
) -> Result<(), Trouble<'a>> {
    let mut trie = [[0u32; 5]; STATES];
    let mut owns = [[0u32; 2]; OUTPUTS];
    let mut notes = [[0u32; 6]; STATES];
    let mut spots = [[0u32; 2]; CELLS];
    let mut base = [0u32; CELLS];
    let mut link = [0u32; CELLS];
    let mut output = [0u32; CELLS];
    let mut check = [0u8; CELLS];
    let mut depth: [Depth; CELLS] = [0; CELLS];
    let mut outs = [[0u32; 3]; OUTPUTS];
    let list = List {
        // The variants of `Kind` stand in the order of the numbers that `List` has for them.
        kind: kind_of(request.way) as u32,
        bytes: codes.bytes,
        ends: codes.ends,
        values: codes.values,
    };
    let counts = build::build(
        list,
        &mut trie,
        &mut owns,
        &mut notes,
        &mut spots,
        &mut base,
        &mut link,
        &mut output,
        &mut check,
        &mut depth,
        &mut outs,
    )
    .map_err(|why| Trouble::File(request.list.as_bytes(), matter_of(why)))?;
    let tables = Tables {
        base: &base,
        link: &link,
        output: &output,
        check: &check,
        depth: &depth,
        outs: &outs,
        counts,
    };
    let name = request.sheet.as_bytes();
    let job = Job {
        sheet,
        codes,
        tables,
    };
    tell_all(rt, request.way, request.numbers, name, job)
}

// The rows of the list, in tables that stand in this frame, and what is told by them.
#[inline(never)]
fn work<'a>(
    rt: &HostRuntime,
    request: &'a Request,
    list: &[u8],
    sheet: &[u8],
) -> Result<(), Trouble<'a>>
    requires { length list.now ≤ 131072 }
{
    let mut bytes = [0u8; LIST];
    let mut ends = [0u32; LISTED];
    let mut values = [0u32; LISTED];
    let mut marks = [0u8; LISTED];
    let read = read_codes(list, &mut bytes, &mut ends, &mut values, &mut marks).map_err(
        |fault| Trouble::File(request.list.as_bytes(), Matter::from(fault)),
    )?;
    let codes = Codes {
        bytes: &bytes[..read.end],
        ends: &ends[..read.rows],
        values: &values[..read.rows],
        marks: &marks[..read.rows],
    };
    build_and_tell(rt, request, codes, sheet)
}

#[inline(never)]
pub(crate) fn run<'a>(rt: &HostRuntime, request: &'a Request) -> Result<(), Trouble<'a>> {
    let list_name = request.list.as_bytes();
    let sheet_name = request.sheet.as_bytes();
    let mut list_room = [0u8; LIST];
    let list = read_file(rt, list_name, &mut list_room).map_err(|matter| Trouble::File(
        list_name, matter,
    ))?;
    if LIST <= list.len() {
        let matter = Matter::Unfit("the list is longer than 131071 bytes");
        return Err(Trouble::File(list_name, matter));
    }
    let mut sheet_room = [0u8; SHEET];
    let sheet = read_file(rt, sheet_name, &mut sheet_room).map_err(|matter| Trouble::File(
        sheet_name, matter,
    ))?;
    work(rt, request, list, sheet)
}
