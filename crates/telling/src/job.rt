// What is searched, and for what.
use desk::codes::Codes;
use table::Tables;

// A sheet, the codes that are looked for in it, and the tables that were built of them.
#[derive(Clone, Copy)]
pub struct Job<'a> {
    pub sheet: &'a [u8],
    pub codes: Codes<'a>,
    pub tables: Tables<'a>,
}
