// Refusals, and the answers that may be one.
ghost use Rattle.search.specs.Promise.{Gives};
ghost use Rattle.common.specs.Refusals.{number_of};

// Why an input is not served, each by the page's number.
#[derive(Clone, Copy, PartialEq, Eq, Debug)]
pub enum Refusal {
    TextTooLong = 1,
    PlaceOutside = 2,
    NoRoom = 3,
    CutsOutOfOrder = 4,
    ListMisshapen = 5,
    ColumnsDiffer = 6,
    NotAtJoint = 7,
    ReplacementOpen = 8,
    LineEndMark = 9,
    NotRecords = 10,
}

impl Refusal {
    // The page's number.
    pub fn number(self) -> u32
        ensures { Gives (number_of self) result }
    {
        self as u32
    }
}
