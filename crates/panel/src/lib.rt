// The panel: entries for a host in C, on numbers and byte runs alone. Each number of a list is four bytes, low byte first. An entry
// returns 0, or the refusal's number, and writes its values to a lent answer run on success alone: how many there are, and these.
#![tactic(auto)]

mod amended; // the amendment
mod cont_state; // the state of the scanner of frames
mod covered; // the cursor
mod explained; // why a line is not on the sheet
mod leaves; // the leaves of common.rs, and the bytes searched for
mod lists; // building, and the work sheet
mod records; // files of JSON
mod scanners; // the scanners
mod states; // states as byte runs
