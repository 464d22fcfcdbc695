// Section 8: the work sheet.
use crate::lists;
use common::grammar::Grammar;
use common::refusal::Refusal;
use common::sets;
use stored::asked::Asked;
use stored::numbers::Numbers;

// All items of the sheet, or the sheet written into so many cells from a list with a stated count.
pub(crate) fn ask(asked: Asked<'_>, reply: Numbers) -> Numbers {
    match asked.letter() {
        b'r' => whole(asked, reply),
        _ => {
            let size = asked.number(0) as usize;
            let count = asked.number(1) as usize;
            lists::into_cells(size, reply, |list| {
                sheet(asked, grammar_of(asked, 2), count, list)
            })
        }
    }
}

fn whole(asked: Asked<'_>, reply: Numbers) -> Numbers {
    let mut space = [0u32; lists::ROOM];
    let list: &mut [u32] = &mut space;
    let count = asked.list(2).len() / 2;
    let answer = sheet(asked, grammar_of(asked, 0), count, list);
    lists::entries(answer, &list[..], 5, reply)
}

// The grammar whose bytes begin at place `i`. The escape plays no part.
fn grammar_of(asked: Asked<'_>, i: usize) -> Grammar {
    if i > 2 {
        return Grammar::house();
    }
    Grammar {
        eol: asked.byte(i),
        escape: 0,
        sep: asked.byte(i + 1),
        tab: asked.byte(i + 2),
    }
}

// By the first `count` of the regions that are given.
fn sheet(asked: Asked<'_>, g: Grammar, count: usize, list: &mut [u32]) -> Result<usize, Refusal> {
    let markers = sets::byte_set(asked.bytes(0));
    let delims = sets::byte_set(asked.bytes(1));
    sheet::sheet(asked.text, g, &markers, &delims, asked.list(2), count, list)
}
