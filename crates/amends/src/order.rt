// The order of refusals: one amendment with any choice of seven faults, and what is answered to each choice. (The first of the page's
// order, a text that is too long, has no room here.)
use crate::trial::{Edit, Rules};
use common::grammar::Grammar;
use common::refusal::Refusal;

// What can be wrong, each by its bit in a choice.
#[derive(Clone, Copy)]
enum Fault {
    ColumnTooShort = 1,
    CutsOutOfOrder = 2,
    CountOverRoom = 4,
    EscapeIsLineEnd = 8,
    CutAtNoJoint = 16,
    ReplacementOpen = 32,
    TooLittleRoom = 64,
}

// The bits of the faults that are chosen.
#[derive(Clone, Copy)]
struct Choice(u32);

pub(crate) fn print_all(rt: &impl Print) {
    for choice in 0..128 {
        let number = number_of(Choice(choice).answer());
        let _ = println!(rt; "faults {choice}: {number}");
    }
}

// The refusal's number, or 0.
fn number_of(a: Result<usize, Refusal>) -> u32 {
    match a {
        Ok(_) => 0,
        Err(r) => r.number(),
    }
}

impl Choice {
    fn has(self, fault: Fault) -> bool {
        self.0 & fault as u32 != 0
    }

    // The house's, with the line end for an escape where that is chosen.
    fn grammar(self) -> Grammar {
        let mut g = Grammar::house();
        if self.has(Fault::EscapeIsLineEnd) {
            g.escape = g.eol;
        }
        g
    }

    fn mins(self) -> &'static [u8] {
        if self.has(Fault::ColumnTooShort) {
            &[]
        } else {
            &[3]
        }
    }

    fn replacement(self) -> &'static [u8] {
        if self.has(Fault::ReplacementOpen) {
            b"<d>"
        } else {
            b"<d>\n\n"
        }
    }

    fn cuts(self) -> (usize, usize) {
        let first = if self.has(Fault::CutAtNoJoint) { 2 } else { 3 };
        if self.has(Fault::CutsOutOfOrder) {
            (6, first)
        } else {
            (first, 6)
        }
    }

    fn answer(self) -> Result<usize, Refusal> {
        // It has joints at 3 and 6, and no region.
        let old = b"a\n\nb\n\nc";
        let (first, second) = self.cuts();
        let edit = Edit {
            first,
            second,
            text: self.replacement(),
        };
        let rules = Rules {
            grammar: self.grammar(),
            mins: self.mins(),
        };
        let count = usize::from(self.has(Fault::CountOverRoom));
        let mut cells = [0; 4];
        let room = if self.has(Fault::TooLittleRoom) { 0 } else { 4 };
        rules.amend(old, &[], count, edit, &mut cells[..room])
    }
}
