// Section 1: the leaves of common.rs, and the fence tests of context.rs.
use crate::answers;
use common::grammar::Grammar;
use common::sets;
use lines::fence_tests;
use stored::asked::Asked;
use stored::numbers::Numbers;

pub(crate) fn ask(asked: Asked<'_>, reply: Numbers) -> Numbers {
    let first = asked.byte(0);
    let text = asked.text;
    let place = asked.place;
    match asked.letter() {
        b'e' => answers::answer(lines::find_line_end(text, place, first), reply),
        b'c' => answers::answer(lines::count_escape(text, place, first), reply),
        b'a' => any_of(asked, reply),
        b'b' => probe(text, reply),
        b'p' => in_paragraph(asked, reply),
        b'o' => rule_opens(asked, reply),
        b'k' => reply.and(1).flag(closes(asked)),
        b's' => reply.value(closed_at(asked, place, asked.byte(1) as usize)),
        _ => opened(asked, reply),
    }
}

fn any_of(asked: Asked<'_>, reply: Numbers) -> Numbers {
    let needles = [asked.byte(1), asked.byte(2), asked.byte(3)];
    let count = asked.number(0) as usize;
    let place = find::find_any_of(&needles, count, asked.text, asked.place);
    answers::sought(place, asked.text.len(), reply)
}

// Questions with rules, whose bytes and minimums are two lists.
fn in_paragraph(asked: Asked<'_>, reply: Numbers) -> Numbers {
    reply.found(lines::next_in_paragraph(
        asked.text,
        asked.place,
        asked.byte(0),
        asked.byte(1),
        asked.bytes(0),
        asked.bytes(1),
    ))
}

fn rule_opens(asked: Asked<'_>, reply: Numbers) -> Numbers {
    let eol = asked.byte(0);
    match opening(asked.text, asked.place, eol, asked.bytes(0), asked.bytes(1)) {
        Some((count, _)) => reply.and(1).size(count),
        None => reply.and(2),
    }
}

fn opening(
    text: &[u8],
    place: usize,
    eol: u8,
    bytes: &[u8],
    mins: &[u8],
) -> Option<(usize, usize)> {
    let fences = fence_tests::fence_table(bytes, mins);
    fence_tests::fence_opens(text, place, eol, &fences)
}

// Line end, separator and tab follow a fence's byte and count. The escape plays no part.
fn grammar_of(asked: Asked<'_>) -> Grammar {
    Grammar {
        eol: asked.byte(2),
        escape: 0,
        sep: asked.byte(3),
        tab: asked.byte(4),
    }
}

fn closes(asked: Asked<'_>) -> bool {
    let g = grammar_of(asked);
    let end = find::find_byte(asked.text, asked.place, g.eol);
    let count = asked.byte(1) as usize;
    fence_tests::fence_closes(asked.text, asked.place, end, asked.byte(0), count, g)
}

// Where the line ends that closes a fence of so many bytes, else where the text does.
fn closed_at(asked: Asked<'_>, from: usize, count: usize) -> usize {
    let text = asked.text;
    match fence_tests::fence_close_scan(text, from, asked.byte(0), count, grammar_of(asked)) {
        Some((_, end)) => end,
        None => text.len(),
    }
}

// Whether the first line opens a fence; then its count, and where the fence is closed.
fn opened(asked: Asked<'_>, reply: Numbers) -> Numbers {
    let text = asked.text;
    let eol = asked.byte(2);
    match opening(text, 0, eol, &[asked.byte(0)], &[asked.byte(1)]) {
        Some((count, end)) => {
            let from = search::next_line(text.len(), end);
            reply.and(1).size(count).size(closed_at(asked, from, count))
        }
        None => reply.and(2),
    }
}

// How many bytes a set has, and these; of more than three only the first three.
fn probe(accepted: &[u8], reply: Numbers) -> Numbers {
    let set = sets::byte_set(accepted);
    let probe = sets::probe_matcher(&set);
    let count = if probe.streaming {
        reply.value(probe.nn)
    } else {
        reply.and(2)
    };
    count.bytes(&probe.needles)
}
