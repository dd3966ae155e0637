// Inner: what the command for the yard tells: the matches, for people or for programs, and what is refused. Lines are put together in a buffer and
// written at once.
#![tactic(auto)]

mod job;
pub mod lines;
mod matches;
mod numbers;
mod report;
pub mod tell;
pub mod trouble;

pub use job::Job;
