// Regions poured into lists in bytes, by rules that byte runs hold.
#![tactic(auto)]

pub mod building; // regions by columns and by records
pub mod counting; // how many there are
mod pouring; // regions into a list in bytes
