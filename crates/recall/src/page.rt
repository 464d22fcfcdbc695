// Section 0: what the page says by itself, here of refusals by number, the cursor, building, stretches of text, the house grammar and
// byte sets.
use crate::question;
use common::grammar::Grammar;
use common::refusal::Refusal;
use common::span::Span;
use common::{sets, span};
use stored::numbers::Numbers;

// What ours answer; no number where that is no question of this section.
pub(crate) fn reply(letter: u8, numbers: &[u32]) -> Numbers {
    match letter {
        b'v' | b'w' => question::reply(7, letter, false, numbers),
        b'o' => question::reply(6, b'c', false, numbers),
        b'u' => question::reply(8, b'c', false, numbers),
        b'b' => question::reply(0, letter, false, numbers),
        _ => plain(letter, numbers),
    }
}

// A question that takes neither a text nor a set.
fn plain(letter: u8, numbers: &[u32]) -> Numbers {
    match (letter, numbers) {
        (b'n', [row]) => Numbers::none().and(numbered(*row)),
        (b's', [start, end, length]) => stretch(*start, *end, *length as usize),
        (b'l', [start, end, more]) => {
            stretch(*start, *end, span::MAX_INPUT_LEN + *more as usize)
        }
        (b'h', [byte]) => class(*byte),
        (b'm', [class, byte]) => class_member(*class, *byte),
        (b'g', []) => house(),
        (b't', []) => Numbers::none().size(span::MAX_INPUT_LEN),
        _ => Numbers::none(),
    }
}

// The number of the refusal that stands in a row of the page's table.
fn numbered(row: u32) -> u32 {
    let refusal = match row {
        1 => Refusal::TextTooLong,
        2 => Refusal::PlaceOutside,
        3 => Refusal::NoRoom,
        4 => Refusal::CutsOutOfOrder,
        5 => Refusal::ListMisshapen,
        6 => Refusal::ColumnsDiffer,
        7 => Refusal::NotAtJoint,
        8 => Refusal::ReplacementOpen,
        9 => Refusal::LineEndMark,
        _ => return 0,
    };
    refusal.number()
}

fn stretch(start: u32, end: u32, length: usize) -> Numbers {
    let bounds = span::content_bounds(length, Span { start, end });
    Numbers::none().size(bounds.start).size(bounds.end)
}

fn house() -> Numbers {
    let g = Grammar::house();
    Numbers::none()
        .byte(g.eol)
        .byte(g.escape)
        .byte(g.sep)
        .byte(g.tab)
}

fn class(byte: u32) -> Numbers {
    match u8::try_from(byte) {
        Ok(byte) => Numbers::none().byte(sets::class(byte)),
        Err(_) => Numbers::none(),
    }
}

// Whether a class has a byte.
fn class_member(class: u32, byte: u32) -> Numbers {
    match u8::try_from(class) {
        Ok(class) => membership(&sets::class_set(class), byte as usize, Numbers::none()),
        Err(_) => Numbers::none(),
    }
}

// Whether the set of the accepted bytes has a byte.
pub(crate) fn member(accepted: &[u8], byte: usize, reply: Numbers) -> Numbers {
    membership(&sets::byte_set(accepted), byte, reply)
}

fn membership(set: &[bool; 256], byte: usize, reply: Numbers) -> Numbers {
    match u8::try_from(byte) {
        Ok(byte) => reply.flag(sets::accepts(set, byte)),
        Err(_) => reply,
    }
}
