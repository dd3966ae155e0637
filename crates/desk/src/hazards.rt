// Whether a match is a hazard: its bytes are those of a marked row. The value does not tell, since several rows may share it. That the ends cut the
// bytes is a premise, and no invariant of `Codes`: `is_hazard` answers on any tables.
ghost use Rattle.std.specs.Prelude.{◌≡◌, ◌&&◌, [], ◌<◌, eqb, length, get_or};
ghost use Rattle.paper.specs.Lists.{same};
ghost use Rattle.list.specs.Listed.{patterns_of};
ghost use Rattle.list.specs.Claims.{SoundEnds};
ghost use Rattle.desk.specs.Hazards.{hazard};

use crate::codes::Codes;
use list::{pattern_end, pattern_start};

const MARKED: u8 = 1;

impl Codes<'_> {
    // Whether row i has this code.
    fn row_has(self, i: usize, code: &[u8]) -> bool
        requires { i < length self.ends.now }
        ensures { SoundEnds self.entry.bytes.now self.entry.ends.now
            → result ≡ same (get_or (patterns_of self.entry.bytes.now self.entry.ends.now) i []) code.now }
    {
        let start = pattern_start(self.ends, i);
        let end = pattern_end(self.ends, i);
        match self.bytes.get(start..end) {
            Some(part) => part == code,
            None => false,
        }
    }

    // Whether row i is marked and has this code.
    fn row_warns(self, i: usize, code: &[u8]) -> bool
        requires ends { i < length self.ends.now }
        requires marks { i < length self.marks.now }
        ensures { SoundEnds self.entry.bytes.now self.entry.ends.now
            → result ≡ (eqb (get_or self.entry.marks.now i 0) 1
            && same (get_or (patterns_of self.entry.bytes.now self.entry.ends.now) i []) code.now) }
    {
        self.marks[i] == MARKED && self.row_has(i, code)
    }

    // The rows past the last mark have none.
    pub fn is_hazard(self, code: &[u8]) -> bool
        ensures { SoundEnds self.entry.bytes.now self.entry.ends.now
            → result ≡ hazard (patterns_of self.entry.bytes.now self.entry.ends.now) self.entry.marks.now code.now }
    {
        for i in 0..self.ends.len().min(self.marks.len()) {
            if self.row_warns(i, code) {
                return true;
            }
        }
        false
    }
}
