// The row of a line: whether it marks a hazard, its value, and its code.
ghost use Rattle.std.specs.Prelude.{◌≡◌, length};
ghost use Rattle.desk.specs.Rows.{head_of, row_of, head_told, row_told, Within};

use crate::numbers::number_of;
use crate::stretches::count_ahead;

const TABULATOR: u8 = b'\t';

#[derive(Clone, Copy)]
pub struct Row<'a> {
    pub hazard: bool,
    pub value: u32,
    pub code: &'a [u8],
}

// What stands before the tabulator of a line with this number: whether it marks a hazard, and the value.
fn head_of(head: &[u8], number: u32) -> Option<(bool, u32)>
    ensures { head_told result ≡ head_of number head.now }
{
    let Some(digits) = head.strip_prefix(b"!") else {
        return Some((false, number_of(head)?));
    };
    if digits.is_empty() {
        return Some((true, number));
    }
    Some((true, number_of(digits)?))
}

// The row of a line with this number, or none where its value is bad. The line has no return at its end.
pub fn row_of(line: &[u8], number: u32) -> Option<Row<'_>>
    ensures row { row_told result ≡ row_of number line.now }
    ensures within { Within (length line.now) result }
{
    let tab = count_ahead(line, TABULATOR);
    if tab == line.len() {
        return Some(Row {
            hazard: false,
            value: number,
            code: line,
        });
    }
    let (hazard, value) = head_of(&line[..tab], number)?;
    Some(Row {
        hazard,
        value,
        code: &line[tab + 1..],
    })
}
