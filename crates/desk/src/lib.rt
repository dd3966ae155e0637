// Inner: the yard's desk work. It reads a list of codes and a sheet's places, tells hazards from other matches, takes the words of a command,
// and puts lines together. Nothing here reads or writes a file.
#![tactic(auto)]

pub mod codes;
pub mod hazards;
pub mod numbers;
pub mod places;
pub mod rows;
pub mod stretches;
pub mod text;
pub mod words;
