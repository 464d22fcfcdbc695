// The grammar bytes. They are free: any may equal any other.
ghost use Rattle.search.specs.Promise.{Gives};
ghost use Rattle.common.specs.Grammars.{house};

#[derive(Clone, Copy, PartialEq, Eq, Debug)]
pub struct Grammar {
    pub eol: u8,
    pub escape: u8,
    pub sep: u8,
    pub tab: u8,
}

impl Grammar {
    // The house grammar: line feed, backslash, space, tab.
    pub const EOL: u8 = 10;

    pub const ESCAPE: u8 = 92;

    pub const SEP: u8 = 32;

    pub const TAB: u8 = 9;

    // The house's fences, and the least run of either.
    pub const BACKTICK: u8 = 96;

    pub const TILDE: u8 = 126;

    pub const FENCE_MIN: u8 = 3;

    // Its pairs: backticks, and a bracket that another closes; each run's count.
    pub const OPENER: u8 = 60;

    pub const CLOSER: u8 = 62;

    pub const PAIR_COUNT: u32 = 1;

    // Its mark of quoted lines, and how deep they nest at the most.
    pub const QUOTE: u8 = 62;

    pub const NEST: usize = 8;

    // The classes of its accepted bytes.
    pub const MARKERS: u8 = 1;

    pub const DELIMITERS: u8 = 2;

    pub const DIGITS: u8 = 4;

    // How many distinct bytes a builder searches for at the most.
    pub const MAX_NEEDLES: usize = 11;

    pub fn house() -> Self
        ensures { Gives house result }
    {
        Grammar {
            eol: Grammar::EOL,
            escape: Grammar::ESCAPE,
            sep: Grammar::SEP,
            tab: Grammar::TAB,
        }
    }
}
