// The numbers of standard input, a case at a time. Blanks, line ends and remarks part them and count for nothing; a semicolon ends a case.
use crate::case::{Case, Unreadable};
use crate::tally::Tally;

// The room of a case.
const NUMBERS: usize = 100000;

// What reading stands in.
#[derive(Clone, Copy, Debug, PartialEq, Eq)]
enum Within {
    Blanks,
    Number(u32),
    Remark,
}

impl Within {
    // The number that reading stands in with this digit, if there is room for it.
    fn with_digit(self, digit: u8) -> Option<Within> {
        let before = match self {
            Within::Number(number) => number,
            Within::Blanks | Within::Remark => 0,
        };
        let number = before.checked_mul(10)?.checked_add(u32::from(digit))?;
        Some(Within::Number(number))
    }
}

// What reading has come to.
#[derive(Drop)]
pub(crate) struct Reading {
    // The room of a case. It is kept, and not cleared: past the case's own numbers stand those of earlier cases, to which a case that is cut
    // short within a column is still held before it is found to be so.
    room: [u32; NUMBERS],
    // How many numbers the case has so far.
    count: usize,
    within: Within,
}

impl Reading {
    pub(crate) fn new() -> Reading {
        Reading {
            room: [0; NUMBERS],
            count: 0,
            within: Within::Blanks,
        }
    }

    // The case that is read.
    pub(crate) fn case<'a>(&'a self, tally: &'a mut Tally) -> Case<'a> {
        Case::new(&self.room, self.count, tally)
    }

    pub(crate) fn begin_case(&mut self) {
        self.count = 0;
        self.within = Within::Blanks;
    }

    // The input may end only between cases.
    pub(crate) fn end(&self) -> Result<(), Unreadable> {
        if 0 < self.count || matches!(self.within, Within::Number(_)) {
            Err(Unreadable)
        } else {
            Ok(())
        }
    }

    // A number ends where reading comes to stand in something else.
    fn go_on(&mut self, within: Within) -> Result<(), Unreadable> {
        if let Within::Number(number) = self.within {
            let slot = self.room.get_mut(self.count).ok_or(Unreadable)?;
            *slot = number;
            self.count += 1;
        }
        self.within = within;
        Ok(())
    }

    // Reads a byte, and answers whether the case ends with it.
    pub(crate) fn take(&mut self, byte: u8) -> Result<bool, Unreadable> {
        if self.within == Within::Remark && byte != b'\n' {
            return Ok(false);
        }
        match byte {
            b'0'..=b'9' => {
                let number = self.within.with_digit(byte - b'0');
                self.within = number.ok_or(Unreadable)?;
            }
            b' ' | b'\n' | b'\t' | b'\r' | b';' => self.go_on(Within::Blanks)?,
            b'#' => self.go_on(Within::Remark)?,
            _ => return Err(Unreadable),
        }
        Ok(byte == b';')
    }
}
