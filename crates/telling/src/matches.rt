// The matches of a search, one after the other.
ghost use Rattle.std.specs.Iterator.{at_most};

use crate::job::Job;
use search::{Answer, Match, Refusal, Search, Searching};
use std::marker::PhantomData;

// A proved loop has to end. So the calls are counted, up to a number that no search uses up: a sheet has at most 65,536 places, at each of which at most
// 1,024 codes end, and the end is said once. What would follow them is a refusal.
const CALLS: u32 = 67108865;

// What the next calls of a search of this sort answer: matches, or a refusal.
#[derive(Drop)]
pub(crate) struct Matches<'a, S> {
    job: Job<'a>,
    pub value: Search,
    left: u32,
    sort: PhantomData<S>,
}

impl<'a, S> Matches<'a, S> {
    pub(crate) fn of(job: Job<'a>) -> Self {
        Matches {
            job,
            value: Search::fresh(),
            left: CALLS + 1,
            sort: PhantomData,
        }
    }
}

impl<S: Searching> Iterator for Matches<'_, S> {
    type Item = Result<Match, Refusal>;

    ghost remaining = { λ matches. at_most matches.left };

    fn next(&mut self) -> Option<Result<Match, Refusal>> {
        if self.left == 0 {
            return None;
        }
        self.left -= 1;
        if self.left == 0 {
            return Some(Err(Refusal::Damage));
        }
        match S::next(self.value, &self.job.tables, self.job.sheet) {
            Answer::Match(found, next) => {
                self.value = next;
                Some(Ok(found))
            }
            Answer::End(last) => {
                self.value = last;
                None
            }
            Answer::Refused(why, _) => Some(Err(why)),
        }
    }
}
