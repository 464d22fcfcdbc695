// What is counted: lines, and for a section how many answers were compared and how many lines differ.
ghost use Rattle.search.specs.Promise.{Gives};
ghost use Rattle.stored.specs.Tally.{new_tally, on_next_line, differing, one_answered, judged_by};

use crate::form::is_capital;
use crate::line::Line;
use crate::numbers::Numbers;

// Where no section has begun. It is no `Option`, since a list can name a section of this number too, and that is told as none.
pub const NO_SECTION: u32 = 4294967295;

#[derive(Clone, Copy)]
pub struct Tally {
    // The number of the last line, counted from 1.
    pub line: u64,
    pub section: u32,
    // The place where the section's head begins.
    pub head: usize,
    // Answers in full, blocks, and the answers within these.
    pub full: u64,
    pub blocks: u64,
    pub inside: u64,
    pub differ: u64,
}

impl Tally {
    pub fn new(line: u64, section: u32, head: usize) -> Self
        ensures { Gives (new_tally line section head) result }
    {
        Tally {
            line,
            section,
            head,
            full: 0,
            blocks: 0,
            inside: 0,
            differ: 0,
        }
    }

    pub fn next_line(self) -> Self
        ensures { Gives (on_next_line self) result }
    {
        Tally {
            line: self.line.saturating_add(1),
            ..self
        }
    }

    fn differs(self) -> Self
        ensures { Gives (differing self) result }
    {
        Tally {
            differ: self.differ.saturating_add(1),
            ..self
        }
    }

    // A block's first number says how many answers it holds.
    fn answers(self, letter: u8, first: u32) -> Self
        ensures { Gives (one_answered self letter first) result }
    {
        if is_capital(letter) {
            Tally {
                blocks: self.blocks.saturating_add(1),
                inside: self.inside.saturating_add(first as u64),
                ..self
            }
        } else {
            Tally {
                full: self.full.saturating_add(1),
                ..self
            }
        }
    }

    // A line, and what was found. Nothing is passed over in silence: where nothing was found the line counts as one that differs.
    pub fn judged(self, line: Line, reply: Numbers) -> Self
        ensures { Gives (judged_by self line reply) result }
    {
        if reply.count == 0 {
            return self.differs();
        }
        let tally = self.answers(line.letter, reply.cells[0]);
        if line.stores(reply) {
            tally
        } else {
            tally.differs()
        }
    }
}
