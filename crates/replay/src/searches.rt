// The recorded answers of the three searches of a text, each held to what a call gives: one call after the other, each on the value that
// was handed back before.
use crate::case::{Case, Stop, Unreadable};
use search::{Answer, Match, Refusal, Search};
use table::{CellId, Tables};

// The room of a text: one byte more than a text may have, and a little more.
const TEXT: usize = 65600;

// What the parts of an answer are called, in the order in which they are recorded.
const PARTS: &[&str] = &[
    "answer of call",
    "start of match",
    "end of match",
    "value of match",
    "state after call",
    "output after call",
    "place after call",
    "moves after call",
];

// An answer begins with one of these, or with the number of the refusal.
const MATCH: u32 = 1;

const END: u32 = 2;

// An answer as it is told. A refusal is a number, since a wrong record may have any.
#[derive(Clone, Copy)]
enum Told {
    Match(Match, Search),
    End(Search),
    Refused(u32, Search),
}

impl From<Answer> for Told {
    fn from(answer: Answer) -> Told {
        match answer {
            Answer::Match(found, next) => Told::Match(found, next),
            Answer::End(next) => Told::End(next),
            Answer::Refused(refusal, next) => Told::Refused(number_of(refusal), next),
        }
    }
}

// As recorded: the judge has its own numbers.
fn number_of(refusal: Refusal) -> u32 {
    match refusal {
        Refusal::WrongKind => 9,
        Refusal::LongText => 10,
        Refusal::Damage => 11,
    }
}

impl Told {
    // The recorded answer to a call on a value. A refusal hands the value back as it came in, and nothing is recorded beside its number.
    fn recorded(case: &mut Case<'_>, value: Search) -> Result<Told, Unreadable> {
        match case.number()? {
            MATCH => Ok(Told::Match(recorded_match(case)?, recorded_value(case)?)),
            END => Ok(Told::End(recorded_value(case)?)),
            refusal => Ok(Told::Refused(refusal, value)),
        }
    }

    // The value that comes back.
    fn value(self) -> Search {
        match self {
            Told::Match(_, next) | Told::End(next) | Told::Refused(_, next) => next,
        }
    }

    // Part by part. The match is 0 where there is none.
    fn parts(self) -> [u64; 8] {
        let (answer, found) = match self {
            Told::Match(found, _) => (MATCH, found),
            Told::End(_) => (END, NO_MATCH),
            Told::Refused(refusal, _) => (refusal, NO_MATCH),
        };
        let next = self.value();
        [
            u64::from(answer),
            found.start as u64,
            found.end as u64,
            u64::from(found.value),
            u64::from(next.state.0),
            u64::from(next.output),
            next.place as u64,
            next.moves,
        ]
    }
}

const NO_MATCH: Match = Match {
    start: 0,
    end: 0,
    value: 0,
};

fn recorded_match(case: &mut Case<'_>) -> Result<Match, Unreadable> {
    let [start, end, value] = case.take::<3>()?;
    Ok(Match {
        start: start as usize,
        end: end as usize,
        value,
    })
}

// The value after a match or an end: it has been walked to, so its numbers are small.
fn recorded_value(case: &mut Case<'_>) -> Result<Search, Unreadable> {
    let [state, output, place, moves] = case.take::<4>()?;
    Ok(Search {
        state: CellId(state),
        output,
        place: place as usize,
        moves: u64::from(moves),
    })
}

// Two numbers make one of 64 bits, the high half first.
fn long_number(high: u32, low: u32) -> u64 {
    u64::from(high) << 32 | u64::from(low)
}

// The value that the searches of a text start from.
fn recorded_start(case: &mut Case<'_>) -> Result<Search, Unreadable> {
    let [state, output, place_high, place_low, moves_high, moves_low] = case.take::<6>()?;
    Ok(Search {
        state: CellId(state),
        output,
        place: long_number(place_high, place_low) as usize,
        moves: long_number(moves_high, moves_low),
    })
}

// The answers of one search, whose next one `next` gives.
fn compare_course<F: Fn(Search) -> Answer>(
    case: &mut Case<'_>,
    start: Search,
    next: F,
) -> Result<(), Stop>
    requires { F.IsAlwaysCallable next }
{
    let mut value = start;
    for call in 0..case.number()? {
        let due = Told::recorded(case, value)?;
        let here = Told::from(next(value));
        case.judge(PARTS, call as usize, &due.parts(), &here.parts())?;
        value = here.value();
    }
    Ok(())
}

// All three searches, from the same value.
fn compare_text(case: &mut Case<'_>, tables: &Tables<'_>) -> Result<(), Stop> {
    let mut room = [0; TEXT];
    let text = case.column(&mut room)?;
    let start = recorded_start(case)?;
    compare_course(case, start, |value| value.next_overlapping(tables, text))?;
    compare_course(case, start, |value| value.next_plain(tables, text))?;
    compare_course(case, start, |value| value.next_leftmost(tables, text))
}

pub(crate) fn compare_texts(case: &mut Case<'_>, tables: &Tables<'_>) -> Result<(), Stop> {
    for _ in 0..case.number()? {
        compare_text(case, tables)?;
    }
    Ok(())
}
