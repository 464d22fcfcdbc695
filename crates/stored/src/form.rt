// The form of a question: single numbers, lists, a text, and what follows it; and at which places a block asks.
ghost use Rattle.std.specs.Prelude.{◌&&◌, not, get_or};
ghost use Rattle.search.specs.Promise.{Gives};
ghost use Rattle.stored.specs.Form.{form_of, unknown_form, freed, next_end, ends_of, question_of, part_of, rest_of, list_sound, lists_sound, is_sound, behind_text, is_capital, small_of, way_by, fits, way_of};

use crate::parts::{after_list, are_bytes, list, number_at, part};
use crate::texts::Places;

// The most lists that stand before a text.
pub const LISTS: usize = 7;

// The text is taken as one more list.
pub const TEXT: usize = LISTS;

#[derive(Clone, Copy)]
pub struct Form {
    // How many single numbers come first; of these, how many may be any numbers before the others, which are bytes.
    pub wide: usize,
    pub singles: usize,
    // How many lists follow, and which of them may hold any numbers; the others hold bytes.
    pub lists: usize,
    pub free: [bool; LISTS],
    pub places: Places,
}

// A question of a section. The numbers that ask stand beside it.
#[derive(Clone, Copy)]
pub struct Question {
    pub section: u32,
    // The letter that asks of one text.
    pub letter: u8,
    pub places: Places,
    // Where its parts end: at place 0 the single numbers, then each list, and last the text. A list that the form doesn't have ends where
    // it begins.
    pub at: [usize; LISTS + 2],
}

// How the texts of a question are given: one, or one in runs; all of a length, or so many that are drawn. Or it is no question.
#[derive(Clone, Copy)]
pub enum Way {
    One,
    Runs,
    All,
    Drawn,
    Unknown,
}

// Whether a letter asks for a block.
pub(crate) fn is_capital(letter: u8) -> bool
    ensures { Gives (is_capital letter) result }
{
    letter.is_ascii_uppercase()
}

// The letter that asks the same of one text.
pub fn small(letter: u8) -> u8
    ensures { Gives (small_of letter) result }
{
    letter.to_ascii_lowercase()
}

// A small letter asks of one text, which has a star where it stands there in runs; a capital asks of all texts of a length, with a star
// of such as are drawn.
fn way_by(capital: bool, starred: bool) -> Way
    ensures { Gives (way_by capital starred) result }
{
    match (capital, starred) {
        (true, true) => Way::Drawn,
        (true, false) => Way::All,
        (false, true) => Way::Runs,
        (false, false) => Way::One,
    }
}

impl Question {
    // The numbers of a list, or of the text.
    pub fn list(self, asked: &[u32], i: usize) -> &[u32]
        ensures { Gives (part_of self asked.now i) result.now }
    {
        self.part_in(asked, i)
    }

    // The same where all numbers of the question are given as bytes.
    pub fn bytes(self, cells: &[u8], i: usize) -> &[u8]
        ensures { Gives (part_of self cells.now i) result.now }
    {
        self.part_in(cells, i)
    }

    fn part_in<T>(self, run: &[T], i: usize) -> &[T]
        ensures { Gives (part_of self run.now i) result.now }
    {
        if i <= TEXT {
            list(run, self.at[i], self.at[i + 1])
        } else {
            &run[..0]
        }
    }

    fn rest(self, asked: &[u32]) -> &[u32]
        ensures { Gives (rest_of self asked.now) result.now }
    {
        part(asked, self.at[LISTS + 1], asked.len())
    }

    // Number `i` behind the text, else 0.
    pub fn behind(self, asked: &[u32], i: usize) -> u32
        ensures { Gives (get_or (rest_of self asked.now) i 0) result }
    {
        number_at(self.rest(asked), i)
    }
}

// Whether the text is given in runs.
fn is_in_runs(capital: bool, starred: bool) -> bool
    ensures { Gives (not capital && starred) result }
{
    !capital && starred
}

impl Form {
    pub fn new(wide: usize, singles: usize, lists: usize, places: Places) -> Self
        ensures { Gives (form_of wide singles lists places) result }
    {
        Form {
            wide,
            singles,
            lists,
            free: [false; LISTS],
            places,
        }
    }

    // A letter that asks nothing.
    pub fn unknown() -> Self
        ensures { Gives unknown_form result }
    {
        Form::new(0, 0, 0, Places::Nowhere)
    }

    // List `i` may hold any numbers.
    pub fn free(self, i: usize) -> Self
        ensures { Gives (freed self i) result }
    {
        let mut form = self;
        if i < LISTS {
            form.free[i] = true;
        }
        form
    }

    // The end of list `i`, which begins at `at` where the form has it, or of the text.
    fn next_end(self, asked: &[u32], at: usize, i: usize) -> usize
        ensures { Gives (next_end self asked.now at i) result }
    {
        if i < self.lists || i == TEXT {
            after_list(asked, at)
        } else {
            at
        }
    }

    // Where the parts of a question of this form end.
    fn ends(self, asked: &[u32]) -> [usize; LISTS + 2]
        ensures { Gives (ends_of self asked.now) result }
    {
        let mut at = [0usize; LISTS + 2];
        let mut end = self.singles;
        for (i, place) in at.iter_mut().enumerate() {
            *place = end;
            end = self.next_end(asked, end, i);
        }
        at
    }

    pub fn question(self, section: u32, letter: u8, asked: &[u32]) -> Question
        ensures { Gives (question_of self section letter asked.now) result }
    {
        Question {
            section,
            letter: small(letter),
            places: self.places,
            at: self.ends(asked),
        }
    }

    fn list_is_sound(self, asked: &[u32], question: Question, i: usize) -> bool
        ensures { Gives (list_sound self asked.now question i) result }
    {
        i >= LISTS || self.free[i] || are_bytes(question.list(asked, i), false)
    }

    fn lists_are_sound(self, asked: &[u32], question: Question) -> bool
        ensures { Gives (lists_sound self asked.now question) result }
    {
        (0..LISTS).all(|i| self.list_is_sound(asked, question, i))
    }

    // Whether a question's numbers are bytes wherever bytes are meant. The text may be in runs.
    fn is_sound(self, asked: &[u32], question: Question, runs: bool) -> bool
        ensures { Gives (is_sound self asked.now question runs) result }
    {
        !matches!(self.places, Places::Nowhere)
            && are_bytes(part(asked, self.wide, self.singles), false)
            && are_bytes(question.list(asked, TEXT), runs)
            && self.lists_are_sound(asked, question)
    }

    // How many numbers stand behind the text: a place where the question has one. A block has an alphabet where the text stands otherwise,
    // and a length behind it; for texts that are drawn, a seed and how many there are come last.
    fn behind_text(self, capital: bool, starred: bool) -> usize
        ensures { Gives (behind_text self capital starred) result }
    {
        match self.places {
            _ if capital && starred => 3,
            Places::Whole if !capital => 0,
            _ => 1,
        }
    }

    // How the texts of a question are given that has this form, if it has it.
    pub fn way(self, letter: u8, starred: bool, asked: &[u32], question: Question) -> Way
        ensures { Gives (way_of self letter starred asked.now question) result }
    {
        let capital = is_capital(letter);
        if self.fits(capital, starred, asked, question) {
            way_by(capital, starred)
        } else {
            Way::Unknown
        }
    }

    // Whether a question has this form.
    fn fits(self, capital: bool, starred: bool, asked: &[u32], question: Question) -> bool
        ensures { Gives (fits self capital starred asked.now question) result }
    {
        question.rest(asked).len() == self.behind_text(capital, starred)
            && self.is_sound(asked, question, is_in_runs(capital, starred))
    }
}
