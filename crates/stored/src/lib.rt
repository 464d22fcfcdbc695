// Stored answers: the numbers of a list's lines, the questions that they ask, the texts of these, and what is counted. What a program
// that replays a list reads, asks and prints is its own.
#![tactic(auto)]

pub mod answers; // an answer in a list's terms
pub mod asked; // a question with what asks it
pub mod form; // what stands before a question's text, and behind it
pub mod line; // the numbers of a line
pub mod long; // texts that are too long for a line
pub mod numbers; // runs of numbers
pub mod parts; // parts of a run
pub mod sums; // the checksums of a block
pub mod tally; // what is counted
pub mod texts; // the texts of a block
