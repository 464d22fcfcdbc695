// Rules given as columns, where a place of a count column is a number or a byte of one; and whether the columns fit together.
ghost use Rattle.search.specs.Promise.{Gives};
ghost use Rattle.rules.specs.Columns.{inline_differ, columns_differ};

use cells::Piece;

// The inline rules: symmetric bytes and counts; asymmetric openers, closers and counts.
#[derive(Clone, Copy)]
pub struct InlineColumns<'a, T> {
    pub symmetric: &'a [u8],
    pub times: &'a [T],
    pub openers: &'a [u8],
    pub closers: &'a [u8],
    pub counts: &'a [T],
}

// All rules: fence bytes and minimums, and the inline rules.
#[derive(Clone, Copy)]
pub struct RuleColumns<'a, T> {
    pub fences: &'a [u8],
    pub mins: &'a [u8],
    pub inline: InlineColumns<'a, T>,
}

impl<T: Piece> InlineColumns<'_, T> {
    // Whether an inline rule's columns differ in length.
    pub fn differ(self) -> bool
        ensures { Gives (inline_differ T.differs self.entry) result }
    {
        T::differs(self.symmetric, self.times)
            || self.openers.len() != self.closers.len()
            || T::differs(self.openers, self.counts)
    }
}

impl<T: Piece> RuleColumns<'_, T> {
    // Whether any rule's columns differ in length.
    pub fn differ(self) -> bool
        ensures { Gives (columns_differ T.differs self.entry) result }
    {
        self.fences.len() != self.mins.len() || self.inline.differ()
    }
}
