// The leaves of the scanners that take a text, after common.rs: the end of a line, escape runs, and the next byte in a paragraph. Each
// entry refuses in the page's order (1 the text is too long, 6 the columns differ, 2 the place is past the text) and otherwise makes one
// call.
#![tactic(auto)]

pub mod fence_tests; // what a line says of fences, and the search for a close

ghost use Rattle.search.specs.Promise.{Gives};
ghost use Rattle.common.specs.Refusals.{told, told_found};
ghost use Rattle.lines.specs.Leaf.{find_line_end, count_escape, next_in_paragraph};

use common::grammar::Grammar;
use common::refusal::Refusal;
use common::span::MAX_INPUT_LEN;

// The first line end at or after `from`, else the text's length.
pub fn find_line_end(src: &[u8], from: usize, eol: u8) -> Result<usize, Refusal>
    ensures { Gives (find_line_end src.now from eol) (told result) }
{
    if src.len() > MAX_INPUT_LEN {
        return Err(Refusal::TextTooLong);
    }
    if from > src.len() {
        return Err(Refusal::PlaceOutside);
    }
    Ok(find::find_byte(src, from, eol))
}

// How many escape bytes stand just before `pos`. Where the count is odd, the byte at `pos` is an escaped one.
pub fn count_escape(src: &[u8], pos: usize, escape: u8) -> Result<usize, Refusal>
    ensures { Gives (count_escape src.now pos escape) (told result) }
{
    if src.len() > MAX_INPUT_LEN {
        return Err(Refusal::TextTooLong);
    }
    if pos > src.len() {
        return Err(Refusal::PlaceOutside);
    }
    Ok(search::run_before(src, pos, escape))
}

// The next `needle` at or after `from` within the paragraph. It crosses a single line end, and stops at the end of input, at an
// empty line, or where the entered line opens a fence by the columns. What it finds is a candidate: the caller judges it.
pub fn next_in_paragraph(
    src: &[u8],
    from: usize,
    needle: u8,
    eol: u8,
    bytes: &[u8],
    mins: &[u8],
) -> Result<Option<usize>, Refusal>
    ensures { Gives (next_in_paragraph src.now from needle eol bytes.now mins.now) (told_found result) }
{
    if src.len() > MAX_INPUT_LEN {
        return Err(Refusal::TextTooLong);
    }
    if bytes.len() != mins.len() {
        return Err(Refusal::ColumnsDiffer);
    }
    if from > src.len() {
        return Err(Refusal::PlaceOutside);
    }
    let fences = fence_tests::fence_table(bytes, mins);
    let g = Grammar {
        eol, // the only byte of a grammar that a paragraph is read by
        escape: 0,
        sep: 0,
        tab: 0,
    };
    match fence_tests::next_in(src, from, needle, g, &fences) {
        fence_tests::Hit::At(q) => Ok(Some(q)),
        fence_tests::Hit::End(_) => Ok(None),
    }
}
