// The rules that regions are made by: given as columns or as records, folded once by byte, and the bytes searched for.
#![tactic(auto)]

pub mod columns; // rules as columns
pub mod records; // fence rules as records
pub mod rows; // all rules by byte, folded once
pub mod search_bytes; // the bytes searched for
pub mod tables; // all that a scan asks of rules
