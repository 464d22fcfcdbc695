// Amends small texts in every way, and others that are drawn, and compares with building the edited text afresh. Then every choice of
// faults, for the order of refusals. What is to be written comes from `tools/amendments`, which has it from the rules and from the
// Rust. What can't be written is left out.
#![tactic(auto)]

mod draws; // texts and cuts that are drawn
mod order; // which of several refusals is given
mod tally; // what is counted
mod texts; // the texts
mod trial; // one amendment

use tally::Tally;
use texts::{Short, how_many};
use trial::{Edit, Old};

// Old texts to five bytes over five telling ones, all pairs of cuts, all replacements to three.
const LONGEST: u32 = 5;

const LONGEST_REPLACEMENT: u32 = 3;

fn main(rt: HostRuntime) {
    for length in 0..=LONGEST {
        let _ = println!(rt; "old texts of {length}: {}", of_length(length));
    }
    let _ = println!(rt; "drawn: {}", draws::all());
    order::print_all(&rt);
}

// All old texts of a length.
fn of_length(length: u32) -> Tally {
    let mut tally = Tally::new();
    for number in 0..how_many(length) {
        of_text(&Old::new(Short::numbered(number, length)), &mut tally);
    }
    tally
}

// All pairs of cuts of an old text.
fn of_text(old: &Old, tally: &mut Tally) {
    let end = old.text().len();
    for first in 0..=end {
        for second in 0..=end {
            of_cuts(old, first, second, tally);
        }
    }
}

// All replacements.
fn of_cuts(old: &Old, first: usize, second: usize, tally: &mut Tally) {
    for length in 0..=LONGEST_REPLACEMENT {
        for number in 0..how_many(length) {
            let text = Short::numbered(number, length);
            let edit = Edit {
                first,
                second,
                text: text.as_slice(),
            };
            old.amend(edit, tally);
        }
    }
}
