// The amendment of a region list: where a stretch of a text is replaced between two joints, the list of the edited text is made from
// the old list and the replacement alone. Of the old text only its length and the two bytes before each cut are read.
#![tactic(auto)]

mod joints; // where an amendment may cut
pub mod own; // the replacement's own regions
mod rows; // a list as rows of two numbers

ghost use Rattle.common.specs.Entry.{wide};
ghost use Rattle.common.specs.Lists.{Wrote};
ghost use Rattle.common.specs.Refusals.{told};
ghost use Rattle.region.specs.Region.{row};
ghost use Rattle.rules.specs.Columns.{columns_of};
ghost use Rattle.rules.specs.Tables.{gram_in};
ghost use Rattle.amend.specs.Amended.{edit, regions_in, list_regions, Amended};
ghost use Rattle.amend.specs.Parts.{JudgedEdit, Judged, CutsReady, parts, Roomy, Settled};

use common::grammar::Grammar;
use common::list::WIDE;
use common::refusal::Refusal;
use common::span::MAX_INPUT_LEN;
use cover::shape::is_misshapen;
use joint::{is_left_open, marks_line_end};
use joints::is_off_joint;
use own::{survey, write_own};
use rows::{copy_rows, starts_before};
use rules::columns::RuleColumns;
use rules::tables::Tables;

// What is wrong with the rules: columns differ; a line end escapes or opens.
#[derive(Clone, Copy)]
pub struct Flaws {
    pub unequal: bool,
    pub marked: bool,
}

// Where a text of `len` bytes is cut.
#[derive(Clone, Copy)]
pub struct Cuts {
    pub first: usize,
    pub second: usize,
    pub len: usize,
}

// Of a list's `count` rows those before row `before` are kept, and those from row `after` on are moved.
#[derive(Clone, Copy)]
pub struct Split {
    pub before: usize,
    pub after: usize,
    pub count: usize,
}

// The refusals that the texts' lengths, the columns and the cuts decide, in the page's order.
pub fn judge_edit(
    old: &[u8],
    first: usize,
    second: usize,
    text: &[u8],
    unequal: bool,
) -> Result<(), Refusal>
    ensures { JudgedEdit old.now (edit first second text.now) unequal result }
{
    let len = old.len();
    if len > MAX_INPUT_LEN {
        return Err(Refusal::TextTooLong);
    }
    if text.len() > MAX_INPUT_LEN {
        return Err(Refusal::TextTooLong);
    }
    if unequal {
        return Err(Refusal::ColumnsDiffer);
    }
    if first > second {
        return Err(Refusal::CutsOutOfOrder);
    }
    if second > len {
        return Err(Refusal::CutsOutOfOrder);
    }
    if len - (second - first) + text.len() > MAX_INPUT_LEN {
        return Err(Refusal::TextTooLong);
    }
    Ok(())
}

// These, and then those that the list, the rules and the bytes before the cuts decide.
fn judge(
    old: &[u8],
    list: &[u32],
    count: usize,
    first: usize,
    second: usize,
    text: &[u8],
    flaws: Flaws,
    eol: u8,
) -> Result<(), Refusal>
    ensures { Judged eol old.now list.now count (edit first second text.now) flaws.unequal
        flaws.marked result }
{
    match judge_edit(old, first, second, text, flaws.unequal) {
        Err(r) => Err(r),
        Ok(()) => {
            if is_misshapen(list, count, old.len()) {
                return Err(Refusal::ListMisshapen);
            }
            if flaws.marked {
                return Err(Refusal::LineEndMark);
            }
            if is_off_joint(old, list, count, first, second, eol) {
                return Err(Refusal::NotAtJoint);
            }
            Ok(())
        }
    }
}

// Writes the list of the edited text: the rows that are kept; the replacement's own regions, moved up by the first cut; the last rows,
// moved by the change in length. Answers their number.
fn write(
    list: &[u32],
    split: Split,
    cuts: Cuts,
    text: &[u8],
    tables: &Tables,
    out: &mut [u32],
) -> usize
    requires { Roomy wide (gram_in tables.now) list.now split cuts text.now out.old }
    ensures { Wrote row (parts (gram_in tables.now) list.now split cuts
        text.now) out.old out.new result }
{
    let kept = copy_rows(list, 0, split.before, 0, 0, out, 0);
    let own = write_own(text, cuts.first, tables, out, kept);
    copy_rows(
        list,
        split.after,
        split.count,
        cuts.second,
        cuts.first + text.len(),
        out,
        own,
    )
}

// The refusals that the replacement and the room decide, 8 before 3, for cuts that may be made; else the list written. A counting pass
// over the replacement goes before, since nothing may be written where either refuses.
fn settle(
    list: &[u32],
    count: usize,
    cuts: Cuts,
    text: &[u8],
    tables: &Tables,
    out: &mut [u32],
) -> Result<usize, Refusal>
    requires { CutsReady list.now count cuts text.now }
    ensures { Settled tables.now.alphabet.grammar.eol cuts.len (list_regions (gram_in tables.now))
        (regions_in count list.now) (edit cuts.first cuts.second text.now) out.old
        out.new (told result) }
{
    let own = survey(text, tables);
    let left_open = is_left_open(
        cuts.second < cuts.len,
        text,
        own.reaching,
        tables.alphabet.grammar.eol,
    );
    let before = starts_before(list, count, cuts.first);
    let after = starts_before(list, count, cuts.second);
    let total = before + own.count + (count - after);
    if left_open {
        return Err(Refusal::ReplacementOpen);
    }
    if out.len() / WIDE < total {
        return Err(Refusal::NoRoom);
    }
    let split = Split {
        before,
        after,
        count,
    };
    Ok(write(list, split, cuts, text, tables, out))
}

// Amends the list of an old text, whose first `count` regions it has, for the text in which the bytes from the first cut up to the
// second are replaced by `text`: writes to `out` the regions that start before the first cut; the replacement's own, moved up by the
// first cut; unless the second cut is the text's end, those that start at or after it, moved by the change in length. Answers their
// number, and changes nothing beyond them. A refusal (1 a text is too long, 6 columns differ, 4 cuts out of order, 1 the edited text is
// too long, 5 the list is misshapen, 9 a line end escapes or opens, 7 a cut is not at a joint, 8 the replacement is open at its end, 3
// too little room) changes nothing.
pub fn amend(
    old: &[u8],
    list: &[u32],
    count: usize,
    first: usize,
    second: usize,
    text: &[u8],
    g: Grammar,
    rules: RuleColumns<u32>,
    out: &mut [u32],
) -> Result<usize, Refusal>
    ensures { Amended g (columns_of (λ l. l) rules.entry) old.now list.now count
        (edit first second text.now) out.old out.new (told result) }
{
    let inline = rules.inline;
    let flaws = Flaws {
        unequal: rules.differ(),
        marked: marks_line_end(g.eol, g.escape, inline.symmetric, inline.openers),
    };
    match judge(old, list, count, first, second, text, flaws, g.eol) {
        Err(r) => Err(r),
        Ok(()) => {
            let cuts = Cuts {
                first,
                second,
                len: old.len(),
            };
            settle(list, count, cuts, text, &Tables::of(g, rules), out)
        }
    }
}
