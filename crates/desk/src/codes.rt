// The whole list of codes, read into tables: the bytes of all codes in a row, and for each row the end of its code, its value and its mark.
ghost use Rattle.std.specs.Prelude.{◌≡◌, ◌≤◌, ◌<◌, length, IfOk};
ghost use Rattle.desk.specs.Codes.{codes, Says};

use crate::rows::row_of;
use crate::stretches::{Lines, bare};

// How many rows were read, and where the bytes of their codes end: they are the first of the tables.
#[derive(Clone, Copy, Debug, PartialEq, Eq)]
pub struct Read {
    pub rows: usize,
    pub end: usize,
}

// The rows of a list, in tables that hold just them: one for each field, since a build takes ends and values as slices.
#[derive(Clone, Copy)]
pub struct Codes<'a> {
    pub bytes: &'a [u8],
    pub ends: &'a [u32],
    pub values: &'a [u32],
    // 1 marks a hazard. It stays a number: `hazard` of specs/Hazards.antt counts any other number as no mark.
    pub marks: &'a [u8],
}

#[derive(Clone, Copy, Debug, PartialEq, Eq)]
pub enum Fault {
    // The first line, from 0, whose value is bad.
    BadValue(usize),
    // There are more lines than slots.
    TooMany,
}

// Reads a list. Up to the first bad line the tables are written.
pub fn read_codes(
    file: &[u8],
    bytes: &mut [u8],
    ends: &mut [u32],
    values: &mut [u32],
    marks: &mut [u8],
) -> Result<Read, Fault>
    requires file_fits_numbers { length file.now < 4294967296 }
    requires file_fits_bytes { length file.now ≤ length bytes.old }
    requires ends_fit_values { length ends.old ≤ length values.old }
    requires ends_fit_marks { length ends.old ≤ length marks.old }
    ensures says { Says (codes (length ends.old) file.now) bytes.new ends.new values.new marks.new result }
    ensures inside { IfOk result (λ r. (r.end ≤ length bytes.new) × (r.rows ≤ length ends.new)) }
{
    let mut end = 0;
    // Counted by hand: it is the answer too, how many rows there are, and `enumerate` would drop it at the end.
    let mut rows = 0;
    for line in Lines::of(file) {
        if ends.len() <= rows {
            return Err(Fault::TooMany);
        }
        let Some(row) = row_of(bare(line), rows as u32) else {
            return Err(Fault::BadValue(rows));
        };
        let next = end + row.code.len();
        bytes[end..next].copy_from_slice(row.code);
        ends[rows] = next as u32;
        values[rows] = row.value;
        marks[rows] = u8::from(row.hazard);
        end = next;
        rows += 1;
    }
    Ok(Read { rows, end })
}
