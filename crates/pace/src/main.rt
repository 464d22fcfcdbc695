// Builds a note of 1,000,000 bytes afresh, or amends its list by 100 bytes, as often as standard input says, and prints how many regions
// the edited note has. `tools/pace` times both. The input is `b` or `a`, a blank and a number. What can't be written is left out.
#![tactic(auto)]

use common::grammar::Grammar;
use rules::columns::{InlineColumns, RuleColumns};
use std::io::Read;

// What is read of the input at the most.
const ORDER: usize = 16;

const NOTE: usize = 1000000;

// A paragraph has 100 bytes, the last two of them line ends; the amended one begins here.
const PARAGRAPH: usize = 100;

const CUT: usize = 505000;

// Room for the regions of a note: one in each hundredth paragraph, and some more.
const CELLS: usize = 256;

// A number above this one takes no further digit.
const MOST_TIMES: u32 = 99999999;

fn main(rt: HostRuntime) {
    let mut room = [0; ORDER];
    let order = read_all(&mut rt.reader(), &mut room);
    let times = order.iter().skip(2).copied().fold(0, with_digit);
    let mut note = blank();
    fill(&mut note);
    let mut list = [0; CELLS];
    let count = if order.starts_with(b"b") {
        mark(&mut note);
        build_often(&note, &mut list, times)
    } else {
        amend_often(&note, &mut list, times)
    };
    let _ = println!(rt; "{count} regions");
}

// What is read until the room is full, the input ends or a read fails. `read_exact` doesn't tell how much came before a failed read.
fn read_all<'a>(reader: &mut impl Read, room: &'a mut [u8]) -> &'a [u8] {
    let mut end = 0;
    while end < room.len() {
        match reader.read(&mut room[end..]) {
            Ok(0) | Err(_) => break,
            Ok(n) => end += n,
        }
    }
    &room[..end]
}

// Room for a note. A function makes it, since a proof takes the length of what a call answers from its type, and does not count a
// million zeros.
fn blank() -> [u8; NOTE] {
    [0; NOTE]
}

fn with_digit(n: u32, byte: u8) -> u32 {
    if byte.is_ascii_digit() && n <= MOST_TIMES {
        n * 10 + u32::from(byte - b'0')
    } else {
        n
    }
}

// Prose, with a pair of marks in each hundredth paragraph.
fn fill(note: &mut [u8]) {
    for (i, byte) in note.iter_mut().enumerate() {
        *byte = byte_for(i % 10000, i % PARAGRAPH);
    }
}

fn byte_for(place: usize, column: usize) -> u8 {
    match place {
        20 => b'<',
        24 => b'>',
        _ => prose(column),
    }
}

fn prose(column: usize) -> u8 {
    if column > 97 {
        b'\n'
    } else if column % 7 == 6 {
        b' '
    } else {
        b'e'
    }
}

// The paragraph at the cut gets a pair of its own.
fn mark(note: &mut [u8; NOTE]) {
    note[CUT + 20] = b'<';
    note[CUT + 24] = b'>';
}

fn rules() -> RuleColumns<'static, u32> {
    RuleColumns {
        fences: b"`~",
        mins: &[3, 3],
        inline: InlineColumns {
            symmetric: b"`",
            times: &[1],
            openers: b"<",
            closers: b">",
            counts: &[1],
        },
    }
}

fn build(note: &[u8], list: &mut [u32]) -> usize {
    context::build(note, Grammar::house(), rules(), list).unwrap_or(0)
}

fn build_often(note: &[u8], list: &mut [u32], times: u32) -> usize {
    let mut count = 0;
    for _ in 0..times {
        count = build(note, list);
    }
    count
}

fn amend_often(note: &[u8], list: &mut [u32], times: u32) -> usize {
    let held = build(note, list);
    let mut own = [0; PARAGRAPH];
    fill(&mut own);
    let mut out = [0; CELLS];
    let mut count = 0;
    for _ in 0..times {
        count = amend(note, list, held, &own, &mut out);
    }
    count
}

fn amend(note: &[u8], list: &[u32], held: usize, own: &[u8], out: &mut [u32]) -> usize {
    amend::amend(
        note,
        list,
        held,
        CUT,
        CUT + PARAGRAPH,
        own,
        Grammar::house(),
        rules(),
        out,
    )
    .unwrap_or(0)
}
