// A question with what a section is given to answer it. The parts of the question are looked up here.
ghost use Rattle.std.specs.Prelude.{◌≡◌, get_or};
ghost use Rattle.search.specs.Promise.{Gives};
ghost use Rattle.stored.specs.Form.{part_of, rest_of};

use crate::form::{Question, TEXT};
use crate::parts::number_at;
use search::byte_at;

#[derive(Clone, Copy)]
pub struct Asked<'a> {
    pub question: Question,
    // The numbers that ask, as they are and as bytes.
    pub numbers: &'a [u32],
    pub cells: &'a [u8],
    // What it is asked of: a text, and a place, which is 0 where the question has none.
    pub text: &'a [u8],
    pub place: usize,
}

impl<'a> Asked<'a> {
    // A question of the text that stands in it, and of the place behind that.
    pub fn new(question: Question, numbers: &'a [u32], cells: &'a [u8]) -> Self
        ensures question { result.question ≡ question }
        ensures numbers { result.numbers.now ≡ numbers.now }
        ensures cells { result.cells.now ≡ cells.now }
        ensures text { Gives (part_of question cells.now 7) result.text.now }
        ensures place { Gives (get_or (rest_of question numbers.now) 0 0) result.place }
    {
        Asked {
            question,
            numbers,
            cells,
            text: question.bytes(cells, TEXT),
            place: question.behind(numbers, 0) as usize,
        }
    }

    // The same question of another text and place.
    pub fn of(self, text: &'a [u8], place: usize) -> Self
        ensures question { result.question ≡ self.entry.question }
        ensures numbers { result.numbers.now ≡ self.entry.numbers.now }
        ensures cells { result.cells.now ≡ self.entry.cells.now }
        ensures text { result.text.now ≡ text.now }
        ensures place { result.place ≡ place }
    {
        Asked {
            text,
            place,
            ..self
        }
    }

    pub fn letter(&self) -> u8
        ensures { Gives self.now.question.letter result }
    {
        self.question.letter
    }

    // Number `i` of those that ask, else 0; and the same as a byte.
    pub fn number(&self, i: usize) -> u32
        ensures { Gives (get_or self.now.numbers.now i 0) result }
    {
        number_at(self.numbers, i)
    }

    pub fn byte(&self, i: usize) -> u8
        ensures { Gives (get_or self.now.cells.now i 0) result }
    {
        byte_at(self.cells, i)
    }

    // The numbers of list `i`, or of the text; and the same as bytes.
    pub fn list(&self, i: usize) -> &'a [u32]
        ensures { Gives (part_of self.now.question self.now.numbers.now i) result.now }
    {
        self.question.list(self.numbers, i)
    }

    pub fn bytes(&self, i: usize) -> &'a [u8]
        ensures { Gives (part_of self.now.question self.now.cells.now i) result.now }
    {
        self.question.bytes(self.cells, i)
    }

    // Number `i` behind the text, else 0.
    pub fn behind(&self, i: usize) -> u32
        ensures { Gives (get_or (rest_of self.now.question self.now.numbers.now) i 0) result }
    {
        self.question.behind(self.numbers, i)
    }
}
