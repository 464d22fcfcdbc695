// The leaves of common.rs, and the bytes searched for.
ghost use Rattle.lines.specs.Leaf.{find_line_end, count_escape, next_in_paragraph};
ghost use Rattle.common.specs.Sets.{probe};
ghost use Rattle.cells.specs.Reply.{Replied};
ghost use Rattle.panel.specs.Leaves.{probe_answer, search_answer};

use cells::reply;
use common::sets::{byte_set, probe_matcher};
use rules::search_bytes::search_bytes;

// The first line end at or after a place, else the text's length.
#[unsafe(no_mangle)]
pub extern "C" fn rack_find_line_end(text: &[u8], from: usize, eol: u8, answer: &mut [u8]) -> u32
    ensures { Replied (find_line_end text.now from eol) answer.old answer.new result }
{
    reply::number(lines::find_line_end(text, from, eol), answer)
}

// How many escape bytes stand just before a place.
#[unsafe(no_mangle)]
pub extern "C" fn rack_count_escape(text: &[u8], pos: usize, escape: u8, answer: &mut [u8]) -> u32
    ensures { Replied (count_escape text.now pos escape) answer.old answer.new result }
{
    reply::number(lines::count_escape(text, pos, escape), answer)
}

// The next needle at or after a place within the paragraph, by the fence rules of two columns; no value where there is none.
#[unsafe(no_mangle)]
pub extern "C" fn rack_next_in_paragraph(
    text: &[u8],
    from: usize,
    needle: u8,
    eol: u8,
    fences: &[u8],
    mins: &[u8],
    answer: &mut [u8],
) -> u32
    ensures { Replied (next_in_paragraph text.now from needle eol fences.now mins.now)
        answer.old answer.new result }
{
    reply::found(
        lines::next_in_paragraph(text, from, needle, eol, fences, mins),
        answer,
    )
}

// What a streaming search needs of a set of accepted bytes: the flag, the count, and three needles.
#[unsafe(no_mangle)]
pub extern "C" fn rack_probe_matcher(accepted: &[u8], answer: &mut [u8]) -> u32
    ensures { Replied (probe_answer accepted.now) answer.old answer.new result }
{
    let set = byte_set(accepted);
    let probe = probe_matcher(&set);
    let needles = probe.needles;
    let head = [reply::flag(probe.streaming), probe.nn];
    reply::mixed(&head, &needles, answer)
}

// The bytes that a builder searches for: how many, and the eleven cells.
#[unsafe(no_mangle)]
pub extern "C" fn rack_search_bytes(
    fences: &[u8],
    symmetric: &[u8],
    openers: &[u8],
    answer: &mut [u8],
) -> u32
    ensures { Replied (search_answer fences.now symmetric.now openers.now) answer.old
        answer.new result }
{
    let all = search_bytes(fences, symmetric, openers);
    let bytes = all.bytes;
    let head = [all.count];
    reply::mixed(&head, &bytes, answer)
}
