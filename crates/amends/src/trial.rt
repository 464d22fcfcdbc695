// One amendment, and the rules that all have.
use crate::tally::Tally;
use crate::texts::Short;
use common::grammar::Grammar;
use common::refusal::Refusal;
use rules::columns::{InlineColumns, RuleColumns};

// The cells of a list, more than any of these texts needs. What isn't written keeps its mark.
const CELLS: usize = 36;

const MARKED: [u32; CELLS] = [77; CELLS];

// A fence of tildes, a pair of backticks, a pair of less and greater. The order of refusals wants another grammar or other minimums.
#[derive(Clone, Copy)]
pub(crate) struct Rules<'a> {
    pub(crate) grammar: Grammar,
    pub(crate) mins: &'a [u8],
}

// A text in the place of what stands between two cuts.
#[derive(Clone, Copy)]
pub(crate) struct Edit<'a> {
    pub(crate) first: usize,
    pub(crate) second: usize,
    pub(crate) text: &'a [u8],
}

// A list as it is left, and its count, as `amend` takes both.
#[derive(Clone, Copy, PartialEq)]
struct Listed {
    cells: [u32; CELLS],
    count: usize,
}

// An old text and its list.
#[derive(Drop)]
pub(crate) struct Old {
    text: Short,
    list: Listed,
}

impl Rules<'_> {
    // The house's grammar, and fences of one tilde or more.
    fn house() -> Self {
        Rules {
            grammar: Grammar::house(),
            mins: &[1],
        }
    }

    // A tilde's fences, and pairs of a backtick and of angles.
    fn columns(&self) -> RuleColumns<'_, u32> {
        RuleColumns {
            fences: b"~",
            mins: self.mins,
            inline: InlineColumns {
                symmetric: b"`",
                times: &[1],
                openers: b"<",
                closers: b">",
                counts: &[1],
            },
        }
    }

    fn build(self, text: &[u8], out: &mut [u32]) -> Result<usize, Refusal> {
        context::build(text, self.grammar, self.columns(), out)
    }

    pub(crate) fn amend(
        self,
        old: &[u8],
        list: &[u32],
        count: usize,
        edit: Edit,
        out: &mut [u32],
    ) -> Result<usize, Refusal> {
        amend::amend(
            old,
            list,
            count,
            edit.first,
            edit.second,
            edit.text,
            self.grammar,
            self.columns(),
            out,
        )
    }
}

impl Edit<'_> {
    // The text that it makes of an old one; none where a cut is outside.
    fn applied(self, old: &[u8]) -> Option<Short> {
        let mut text = Short::new();
        text.push_all(old.get(..self.first)?);
        text.push_all(self.text);
        text.push_all(old.get(self.second..)?);
        Some(text)
    }
}

impl Listed {
    // The list of a text, built into marked cells.
    fn built(text: &[u8]) -> Self {
        let mut cells = MARKED;
        match Rules::house().build(text, &mut cells) {
            Ok(count) => Listed { cells, count },
            Err(_) => Listed {
                cells,
                count: CELLS,
            },
        }
    }
}

impl Old {
    pub(crate) fn new(text: Short) -> Self {
        Old {
            text,
            list: Listed::built(text.as_slice()),
        }
    }

    pub(crate) fn text(&self) -> &[u8] {
        self.text.as_slice()
    }

    // Amends the list, and builds the edited text afresh.
    pub(crate) fn amend(&self, edit: Edit, tally: &mut Tally) {
        let mut cells = MARKED;
        let list = &self.list;
        match Rules::house().amend(self.text(), &list.cells, list.count, edit, &mut cells) {
            Ok(count) => tally.made(self.is_fresh(edit, Listed { cells, count })),
            Err(r) => tally.refused(r, cells == MARKED),
        }
    }

    // Whether an amended list is left as that of the edited text.
    fn is_fresh(&self, edit: Edit, list: Listed) -> bool {
        edit.applied(self.text())
            .is_some_and(|text| list == Listed::built(text.as_slice()))
    }
}
