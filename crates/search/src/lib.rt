// The three searches over lent tables. A search value says what a search has come to; each call takes it with the tables and the text, and hands
// back the next one with a match, the end, or a refusal. A call asks nothing: on any tables, any value and any text it answers. It writes nothing,
// and it reads the tables through their readers alone.
#![tactic(auto)]

ghost use Rattle.std.specs.Prelude.{◌≡◌, ◌≤◌, Bool};
ghost use Rattle.table.specs.Agrees.{lent};
ghost use Rattle.search.specs.Admission.{other_kind};
ghost use Rattle.search.specs.Values.{Which, overlapping, plain, leftmost, value_of, begun, match_of, answer};
ghost use Rattle.search.specs.Searches.{is_leftmost, cleared, next_of};

use table::{CellId, Row, Tables};

mod admission;
mod keep;
mod seek;
mod walk;

use admission::{admit, is_other};
use keep::keep;
use seek::{Sought, seek};

// The state that every walk begins with.
const ROOT: u32 = 0;

// What a search has come to. Any value may be handed in.
#[derive(Clone, Copy, PartialEq, Eq)]
pub struct Search {
    pub state: CellId,
    // The place of the output that is given next, 0 for none. It is a number and no Option, since C lends it so and any number may come.
    pub output: u32,
    // How many bytes of the text are taken.
    pub place: usize,
    // The moves so far; leftmost search reports 0.
    pub moves: u64,
}

#[derive(Clone, Copy, PartialEq, Eq)]
pub struct Match {
    pub start: usize,
    pub end: usize,
    pub value: u32,
}

#[derive(Clone, Copy, PartialEq, Eq)]
pub enum Refusal {
    // 9: the tables are of a kind that another search is for.
    WrongKind,
    // 10: the text is above the limit.
    LongText,
    // 11: damage was met.
    Damage,
}

// A refusal hands back the value as it came in. No Result: document 01 names the form, an enum of match, end or refusal with the next value.
#[derive(Clone, Copy, PartialEq, Eq)]
pub enum Answer {
    Match(Match, Search),
    End(Search),
    Refused(Refusal, Search),
}

// A value moved on. Values are made here and in `fresh` alone.
fn moved(state: CellId, output: u32, place: usize, moves: u64) -> Search
    ensures { result ≡ value_of state output place moves }
{
    Search {
        state,
        output,
        place,
        moves,
    }
}

// The match of an output, for the end that it was tested for.
fn matched(row: Row, end: usize) -> Match
    requires { row.length ≤ end }
    ensures { result ≡ match_of row end }
{
    Match {
        start: end - row.length as usize,
        end,
        value: row.value,
    }
}

impl Search {
    // The value that a search begins with.
    pub fn fresh() -> Search
        ensures { result ≡ begun }
    {
        Search {
            state: CellId(ROOT),
            output: 0,
            place: 0,
            moves: 0,
        }
    }

    // The value without the output that it has still to give.
    fn cleared(self) -> Search
        ensures { result ≡ cleared self }
    {
        moved(self.state, 0, self.place, self.moves)
    }

    // Overlapping search: after each byte, the whole output chain. Here and in the two below a refusal goes out by a `return`: an `Answer` is no Result, so
    // `?` doesn't serve.
    pub fn next_overlapping(self, tables: &Tables<'_>, text: &[u8]) -> Answer
        ensures { answer result ≡ next_of overlapping (lent tables.now) tables.now.counts.kind text.now self }
    {
        if let Err(why) = admit(false, tables, text.len(), self) {
            return Answer::Refused(why, self);
        }
        let Ok(sought) = seek(false, tables, text, self) else {
            return Answer::Refused(Refusal::Damage, self);
        };
        match sought {
            Sought::Given(row, at) => Answer::Match(
                matched(row, at.place),
                moved(at.state, row.next, at.place, at.moves),
            ),
            Sought::End(at) => Answer::End(at),
        }
    }

    // Plain search: the first output of the first state that has one; then the walk begins again at root.
    pub fn next_plain(self, tables: &Tables<'_>, text: &[u8]) -> Answer
        ensures { answer result ≡ next_of plain (lent tables.now) tables.now.counts.kind text.now self }
    {
        if let Err(why) = admit(false, tables, text.len(), self) {
            return Answer::Refused(why, self);
        }
        let from = self.cleared();
        let Ok(sought) = seek(false, tables, text, from) else {
            return Answer::Refused(Refusal::Damage, self);
        };
        match sought {
            Sought::Given(row, at) => Answer::Match(
                matched(row, at.place),
                moved(CellId(ROOT), 0, at.place, at.moves),
            ),
            Sought::End(at) => Answer::End(at),
        }
    }

    // Leftmost search: the match that is kept last before a byte ends at root or the text ends. The walk goes on from the match's end.
    pub fn next_leftmost(self, tables: &Tables<'_>, text: &[u8]) -> Answer
        ensures { answer result ≡ next_of leftmost (lent tables.now) tables.now.counts.kind text.now self }
    {
        if let Err(why) = admit(true, tables, text.len(), self) {
            return Answer::Refused(why, self);
        }
        let from = self.cleared();
        let Ok(sought) = seek(true, tables, text, from) else {
            return Answer::Refused(Refusal::Damage, self);
        };
        match sought {
            Sought::Given(row, at) => match keep(tables, text, matched(row, at.place), at) {
                Ok((kept, _)) => Answer::Match(kept, moved(CellId(ROOT), 0, kept.end, 0)),
                Err(_) => Answer::Refused(Refusal::Damage, self),
            },
            Sought::End(at) => Answer::End(moved(CellId(ROOT), 0, at.place, 0)),
        }
    }
}

// A search as a type, for code that serves all three.
pub trait Searching {
    ghost which: { Which };

    // The next answer from a value on.
    fn next(value: Search, tables: &Tables<'_>, text: &[u8]) -> Answer
        ensures { answer result ≡ next_of which (lent tables.now) tables.now.counts.kind text.now value };

    // Whether tables of this kind are for another search. The kind is a number, since tables of any may be lent: one above 2 is for no other search.
    fn is_other(kind: u32) -> bool
        ensures { result ≡ other_kind (is_leftmost which) kind };
}

pub struct Overlapping;

pub struct Plain;

pub struct Leftmost;

impl Searching for Overlapping {
    ghost which = { overlapping };

    fn next(value: Search, tables: &Tables<'_>, text: &[u8]) -> Answer {
        value.next_overlapping(tables, text)
    }

    fn is_other(kind: u32) -> bool {
        is_other(false, kind)
    }
}

impl Searching for Plain {
    ghost which = { plain };

    fn next(value: Search, tables: &Tables<'_>, text: &[u8]) -> Answer {
        value.next_plain(tables, text)
    }

    fn is_other(kind: u32) -> bool {
        is_other(false, kind)
    }
}

impl Searching for Leftmost {
    ghost which = { leftmost };

    fn next(value: Search, tables: &Tables<'_>, text: &[u8]) -> Answer {
        value.next_leftmost(tables, text)
    }

    fn is_other(kind: u32) -> bool {
        is_other(true, kind)
    }
}
