// What a list of regions covers, after context.rs, and what is asked of a list that is given.
#![tactic(auto)]

pub mod cursor; // what a list of regions covers
pub mod shape; // what is asked of a list that is given
