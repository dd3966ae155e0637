// Line and column of a place in a sheet, both from 1.
ghost use Rattle.std.specs.Prelude.{◌≡◌, ◌≤◌, length};
ghost use Rattle.desk.specs.Places.{line_at, column_at};

use crate::stretches::LINE_FEED;
use list::limits::MOST_BYTES;

// A place in a sheet, with its line and its column.
#[derive(Clone, Copy)]
pub struct Place<'a> {
    pub sheet: &'a [u8],
    pub at: usize,
    pub line: usize,
    pub column: usize,
    pub ghost inside: { at ≤ length sheet.now },
    pub ghost line_is: { line ≡ line_at sheet.now at },
    pub ghost column_is: { column ≡ column_at sheet.now at },
}

impl<'a> Place<'a> {
    ghost use Rattle.std.specs.Prelude.{◌<◌, suc, min};

    // The first place of a sheet.
    pub fn first(sheet: &'a [u8]) -> Self
        ensures sheet { result.sheet ≡ sheet.entry }
        ensures at { result.at ≡ 0 }
    {
        Place {
            sheet,
            at: 0,
            line: 1,
            column: 1,
        }
    }

    // The place behind the next byte.
    fn next(self) -> Self
        requires { self.at < length self.sheet.now }
        ensures sheet { result.sheet ≡ self.entry.sheet }
        ensures at { result.at ≡ suc self.entry.at }
    {
        let sheet = self.sheet;
        let at = self.at + 1;
        if sheet[self.at] == LINE_FEED {
            return Place {
                sheet,
                at,
                line: self.line + 1,
                column: 1,
            };
        }
        Place {
            sheet,
            at,
            line: self.line,
            column: self.column + 1,
        }
    }

    fn advance(self, to: usize) -> Self
        requires { (self.at ≤ to) × (to ≤ length self.sheet.now) }
        ensures sheet { result.sheet ≡ self.entry.sheet }
        ensures at { result.at ≡ to }
    {
        let mut place = self;
        for _ in self.at..to {
            place = place.next();
        }
        place
    }

    // The place at `at`, or the last of the sheet where that is past it. This place, if it lies before that, spares the way from the beginning.
    pub fn towards(self, at: usize) -> Self
        ensures sheet { result.sheet ≡ self.entry.sheet }
        ensures at { result.at ≡ min at (length self.entry.sheet.now) }
    {
        let to = at.min(self.sheet.len());
        if self.at <= to {
            return self.advance(to);
        }
        Place::first(self.sheet).advance(to)
    }

    // Where to look from for matches that end at `end` or later: none is longer than the most bytes of a code.
    pub fn follow(self, end: usize) -> Self
        ensures { result.sheet ≡ self.entry.sheet }
    {
        let from = end.saturating_sub(MOST_BYTES);
        if from <= self.at {
            return self;
        }
        self.towards(from)
    }
}
