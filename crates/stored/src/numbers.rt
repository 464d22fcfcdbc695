// Runs of numbers: those of a line, and answers. They are handed on by value: that is proved far faster than a lent list.
ghost use Rattle.common.specs.Sets.{as_flag};
ghost use Rattle.search.specs.Promise.{Gives};
ghost use Rattle.std.specs.List.{fold};
ghost use Rattle.stored.specs.Sums.{clipped};
ghost use Rattle.stored.specs.Numbers.{after_sums, no_numbers, with_number, said_list, said_sums, entries_begun, entries_ended};

use crate::sums::{Sums, number_of};

// The most numbers that a line has.
pub const MOST: usize = 128;

#[derive(Clone, Copy)]
pub struct Numbers {
    // The first of them, in a fixed room, since there is no heap. An answer that is stored has no more.
    pub cells: [u32; MOST],
    pub count: usize,
    // Whether more came than there is room for.
    pub over: bool,
    // Whether a refusal came, which the Rust tells by the number 0 alone.
    pub cut: bool,
    // What all of them, up to a refusal's 0, make of a block's sums.
    pub sums: Sums,
}

impl Numbers {
    pub fn none() -> Self
        ensures { Gives no_numbers result }
    {
        Numbers::after(Sums::new())
    }

    // No number yet of an answer whose question was fed to these sums.
    pub fn after(sums: Sums) -> Self
        ensures { Gives (after_sums sums) result }
    {
        Numbers {
            cells: [0; MOST],
            count: 0,
            over: false,
            cut: false,
            sums,
        }
    }

    // The answer to a block.
    pub fn of_block(sums: Sums) -> Self
        ensures { Gives (said_sums sums) result }
    {
        Numbers::none()
            .and(sums.asked)
            .and(sums.first)
            .and(sums.second)
    }

    // One function does it all: a large struct that goes through several calls is copied at each, and takes its time.
    #[tactic(auto, unfolding(crate::specs::Numbers::with_number))]
    pub fn and(self, x: u32) -> Self
        ensures { Gives (with_number self x) result }
    {
        let mut all = self;
        all.sums = self.sums.answer(x, self.cut);
        if all.count < MOST {
            all.cells[all.count] = x;
            all.count += 1;
        } else {
            all.over = true;
        }
        all
    }

    pub fn byte(self, b: u8) -> Self
        ensures { Gives (with_number self b) result }
    {
        self.and(b as u32)
    }

    pub fn size(self, n: usize) -> Self
        ensures { Gives (with_number self (clipped n)) result }
    {
        self.and(number_of(n))
    }

    pub fn flag(self, on: bool) -> Self
        ensures { Gives (with_number self (as_flag on)) result }
    {
        self.and(u32::from(on))
    }

    pub fn all(self, run: &[u32]) -> Self
        ensures { Gives (fold with_number self run.now) result }
    {
        // A fold copies the struct once more for each number.
        let mut all = self;
        for x in run {
            all = all.and(*x);
        }
        all
    }

    // A list of numbers.
    pub fn list(self, run: &[u32]) -> Self
        ensures { Gives (said_list self run.now) result }
    {
        self.size(run.len()).all(run)
    }

    // A list of bytes.
    pub fn bytes(self, bytes: &[u8]) -> Self
        ensures { Gives (said_list self bytes.now) result }
    {
        let mut all = self.size(bytes.len());
        for b in bytes {
            all = all.and(*b as u32);
        }
        all
    }

    // An answer that begins with 1 and the count of the entries that follow; `counted` says how many these were.
    pub fn entries(self) -> Self
        ensures { Gives (entries_begun self) result }
    {
        let mut all = self.and(1).and(0);
        let sums = all.sums;
        all.sums = sums.count();
        all
    }

    pub fn counted(self, count: u32) -> Self
        ensures { Gives (entries_ended self count) result }
    {
        let mut all = self;
        all.cells[1] = count;
        let sums = all.sums;
        all.sums = sums.counted(count);
        all
    }
}
