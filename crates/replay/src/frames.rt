// Section 5: continuation frames.
use crate::answers;
use common::span::Span;
use cont::ContIter;
use std::array;
use stored::asked::Asked;
use stored::numbers::Numbers;
use stored::parts::{number_at, part};

const DEPTH: usize = ContIter::MAX_DEPTH;

// A fresh state, all frames that it yields, or a step of a handmade state at a place.
pub(crate) fn ask(asked: Asked<'_>, reply: Numbers) -> Numbers {
    match asked.letter() {
        b'f' => state(fresh(asked), reply.and(1)),
        b'r' => run(fresh(asked), asked.text, reply),
        _ => step(handmade(asked), asked.text, reply),
    }
}

fn fresh(asked: Asked<'_>) -> ContIter {
    ContIter::new(
        asked.byte(1),
        asked.byte(2),
        asked.byte(3),
        asked.byte(4),
        asked.number(0) as usize,
    )
}

fn handmade(asked: Asked<'_>) -> ContIter {
    ContIter {
        byte: asked.byte(4),
        eol: asked.byte(5),
        sep: asked.byte(6),
        tab: asked.byte(7),
        cap: asked.number(0) as usize,
        pos: asked.place,
        open: open_of(asked.list(0)),
        open_len: asked.number(1) as usize,
        pending: pending_of(asked.list(1)),
        pending_len: asked.number(2) as usize,
        pending_idx: asked.number(3) as usize,
    }
}

// The cells of a list; those that it doesn't have are 0.
fn open_of(list: &[u32]) -> [u32; DEPTH] {
    array::from_fn(|i| number_at(list, i))
}

fn pending_of(list: &[u32]) -> [Span; DEPTH] {
    array::from_fn(|i| Span {
        start: number_at(list, i * 2),
        end: number_at(list, i * 2 + 1),
    })
}

fn state(state: ContIter, reply: Numbers) -> Numbers {
    let opened = reply
        .byte(state.byte)
        .byte(state.eol)
        .byte(state.sep)
        .byte(state.tab)
        .size(state.cap)
        .size(state.open_len)
        .list(used(&state.open));
    let counted = opened.size(state.pending_len).size(state.pending_idx);
    waiting(&state.pending, counted).size(state.pos)
}

// The cells up to the last that isn't 0.
fn used(cells: &[u32]) -> &[u32] {
    let end = cells.iter().rev().skip_while(|x| **x == 0).count();
    part(cells, 0, end)
}

// The spans up to the last that isn't 0, as a list.
fn waiting(pending: &[Span], before: Numbers) -> Numbers {
    let end = pending
        .iter()
        .rev()
        .skip_while(|span| span.start == 0 && span.end == 0)
        .count();
    part(pending, 0, end).iter().fold(before.size(end), |reply, span| answers::span(*span, reply))
}

fn step(from: ContIter, text: &[u8], reply: Numbers) -> Numbers {
    let step = from.next(text);
    let found = step.found;
    state(step.next, answers::span_found(found, reply))
}

fn run(fresh: ContIter, text: &[u8], reply: Numbers) -> Numbers {
    answers::entries(fresh, reply, |state, reply| {
        let step = state.next(text);
        let found = step.found;
        let Ok(Some(span)) = found else {
            return None;
        };
        Some((step.next, answers::span(span, reply)))
    })
}
