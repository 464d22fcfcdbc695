// The checksums of a block: how many questions were asked, and two sums over questions and answers. The sums differ in multiplier
// and modulus, so that a pair of errors that hides in one shows in the other.
ghost use Rattle.std.specs.Prelude.{◌*◌};
ghost use Rattle.search.specs.Promise.{Gives};
ghost use Rattle.stored.specs.Sums.{clipped, no_sums, fed, fed_text, fed_question, fed_answer, counting, counted_sums, one_more};

use crate::texts::Places;

#[derive(Clone, Copy)]
pub struct Sums {
    pub asked: u32,
    pub first: u32,
    pub second: u32,
    // What one more in a count that was fed before adds to either sum.
    pub lift: u32,
    pub raise: u32,
}

// A length or a place as a number of a list. One that is cut fits no stored answer: these are far below.
pub(crate) fn number_of(n: usize) -> u32
    ensures { Gives (clipped n) result }
{
    n.min(4294967295) as u32
}

// The product, for which 64 bits are enough.
fn times(a: u32, b: u32) -> u64
    ensures { Gives (a * b) result }
{
    a as u64 * b as u64
}

impl Sums {
    pub fn new() -> Self
        ensures { Gives no_sums result }
    {
        Sums {
            asked: 0,
            first: 0,
            second: 0,
            lift: 0,
            raise: 0,
        }
    }

    fn feed(self, x: u32) -> Self
        ensures { Gives (fed self x) result }
    {
        Sums {
            first: ((self.first as u64 * 65599 + x as u64 + 1) % 4294967291) as u32,
            second: ((self.second as u64 * 69069 + x as u64 + 1) % 4294967279) as u32,
            ..self
        }
    }

    fn byte(self, b: u8) -> Self
        ensures { Gives (fed self b) result }
    {
        self.feed(b as u32)
    }

    fn text(self, text: &[u8]) -> Self
        ensures { Gives (fed_text self text.now) result }
    {
        let sums = self.feed(number_of(text.len()));
        text.iter().fold(sums, |sums, b| sums.byte(*b))
    }

    // A question: its text, and the place where it has one.
    pub fn question(self, text: &[u8], places: Places, place: usize) -> Self
        ensures { Gives (fed_question self text.now places place) result }
    {
        let sums = self.text(text);
        match places {
            Places::Whole => sums,
            _ => sums.feed(number_of(place)),
        }
    }

    // A number of an answer; what stands behind a refusal isn't fed.
    pub(crate) fn answer(self, x: u32, cut: bool) -> Self
        ensures { Gives (fed_answer self x cut) result }
    {
        if cut {
            return self;
        }
        let sums = self.feed(x);
        Sums {
            lift: (sums.lift as u64 * 65599 % 4294967291) as u32,
            raise: (sums.raise as u64 * 69069 % 4294967279) as u32,
            ..sums
        }
    }

    // The number fed last is a count that is known only behind what it counts: 0 at first, and `counted` makes it so many.
    pub(crate) fn count(self) -> Self
        ensures { Gives (counting self) result }
    {
        Sums {
            lift: 1,
            raise: 1,
            ..self
        }
    }

    pub(crate) fn counted(self, count: u32) -> Self
        ensures { Gives (counted_sums self count) result }
    {
        let first = times(count, self.lift) % 4294967291 + self.first as u64;
        let second = times(count, self.raise) % 4294967279 + self.second as u64;
        Sums {
            first: (first % 4294967291) as u32,
            second: (second % 4294967279) as u32,
            ..self
        }
    }

    // One more question was asked.
    pub fn asked(self) -> Self
        ensures { Gives (one_more self) result }
    {
        Sums {
            asked: self.asked.saturating_add(1),
            ..self
        }
    }
}
