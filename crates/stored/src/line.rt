// A line of a list: its letter, and its numbers. Those before the equals sign ask, those after it answer; whatever isn't a digit parts
// them.
ghost use Rattle.std.specs.Prelude.{◌-◌};
ghost use Rattle.search.specs.Promise.{Gives};
ghost use Rattle.stored.specs.Line.{nothing_read, with_digit, kept_in, parted_off, with_equals, after_byte, line_of, head_of, kind_of, is_stored};

use crate::numbers::Numbers;
use crate::parts::part;
use search::{byte_at, is_at};

// Numbers are below this.
const TOO_LARGE: u64 = 4294967296;

#[derive(Clone, Copy)]
pub struct Line {
    // What the line begins with, and whether a star follows.
    pub letter: u8,
    pub starred: bool,
    // A number that was too large counts as one that found no room.
    pub numbers: Numbers,
    // How many of them stand before the equals sign, and how many such signs there are, counted to 2.
    pub asked: usize,
    pub equals: u8,
}

// What a line is: a comment, a section's head with its number, a question, or none of these.
#[derive(Clone, Copy)]
pub enum Kind {
    Comment,
    Section(u32),
    Question,
    Broken,
}

// What was read of a line so far.
#[derive(Clone, Copy)]
pub(crate) struct Reading {
    pub(crate) numbers: Numbers,
    pub(crate) asked: usize,
    pub(crate) equals: u8,
    // The number that is being read, if one is.
    pub(crate) number: Option<u64>,
}

impl Reading {
    fn new() -> Self
        ensures { Gives nothing_read result }
    {
        Reading {
            numbers: Numbers::none(),
            asked: 0,
            equals: 0,
            number: None,
        }
    }

    fn digit(&mut self, d: u8)
        ensures { Gives (with_digit self.old d) self.new }
    {
        let before = self.number.unwrap_or(0);
        // One that is too large already stays so.
        let number = if before >= TOO_LARGE {
            before
        } else {
            before * 10 + d as u64
        };
        self.number = Some(number);
    }

    // Keeps the number that ends here, if one does.
    fn parted(&mut self)
        ensures { Gives (parted_off self.old) self.new }
    {
        if let Some(number) = self.number {
            self.numbers = kept(self.numbers, number);
            self.number = None;
        }
    }

    fn equals_sign(&mut self)
        ensures { Gives (with_equals self.old) self.new }
    {
        self.asked = self.numbers.count;
        if self.equals < 2 {
            self.equals += 1;
        }
    }

    // Takes in the next byte. It is written in place: a copy of the numbers for each byte takes its time.
    #[tactic(auto, unfolding(search::specs::Search::digit))]
    fn byte(&mut self, b: u8)
        ensures { Gives (after_byte self.old b) self.new }
    {
        match b {
            b'0'..=b'9' => self.digit(b - b'0'),
            b'=' => {
                self.parted();
                self.equals_sign();
            }
            _ => self.parted(),
        }
    }
}

// A number that is too large finds no room.
fn kept(numbers: Numbers, number: u64) -> Numbers
    ensures { Gives (kept_in numbers number) result }
{
    if number >= TOO_LARGE {
        Numbers {
            over: true,
            ..numbers
        }
    } else {
        numbers.and(number as u32)
    }
}

pub fn read(text: &[u8]) -> Line
    ensures { Gives (line_of text.now) result }
{
    let mut reading = Reading::new();
    for b in text {
        reading.byte(*b);
    }
    reading.parted();
    Line {
        letter: byte_at(text, 0),
        starred: is_at(text, 1, b'*'),
        numbers: reading.numbers,
        asked: reading.asked,
        equals: reading.equals,
    }
}

impl Line {
    // A section's head has its number and no other.
    fn head(self) -> Kind
        ensures { Gives (head_of self) result }
    {
        if self.equals == 0 && self.numbers.count == 1 {
            Kind::Section(self.numbers.cells[0])
        } else {
            Kind::Broken
        }
    }

    // A question has one equals sign.
    pub fn kind(self) -> Kind
        ensures { Gives (kind_of self) result }
    {
        match self.letter {
            b'#' => Kind::Comment,
            _ if self.numbers.over => Kind::Broken,
            b'@' => self.head(),
            _ if self.equals == 1 => Kind::Question,
            _ => Kind::Broken,
        }
    }

    // Whether the numbers after the equals sign are those of an answer.
    pub(crate) fn stores(self, reply: Numbers) -> bool
        ensures { Gives (is_stored self reply) result }
    {
        let found = part(&reply.cells, 0, reply.count);
        let stored = part(&self.numbers.cells, self.asked, self.numbers.count);
        !reply.over && found == stored
    }
}
