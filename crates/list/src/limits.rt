// The limits of document 01 for the code: specs/Limits.antt has the same numbers for the promises.

pub const LAST_KIND: u32 = 2;

pub const ALPHABET: usize = 256;

pub const MOST_LISTED: usize = 1024;

pub const MOST_BYTES: usize = 64;

pub const MOST_CELLS: usize = 65536;

pub const MOST_TEXT: usize = 65536;

// The cells of a block, and the blocks, counted from the last, in which a place is looked for.
pub const BLOCK: u32 = 256;

pub const WINDOW: u32 = 16;
