// What the two item scanners share, sections 3 and 4: their questions, and a state in a list's terms.
use crate::answers;
use common::refusal::Refusal;
use common::scan::{ItemIter, ItemKind};
use common::sets;
use std::marker::PhantomData;
use stored::asked::Asked;
use stored::numbers::Numbers;

// A kind whose items can be told in a list's terms.
pub(crate) trait ToldKind: ItemKind {
    fn told(item: Self::Item, reply: Numbers) -> Numbers;
}

// A fresh state, all items that it yields, or a step of a handmade state at a place.
pub(crate) fn ask<K: ToldKind>(asked: Asked<'_>, reply: Numbers) -> Numbers {
    let set = sets::byte_set(asked.bytes(0));
    match asked.letter() {
        b'f' => said(fresh::<K>(asked, &set), reply.and(1)),
        b'r' => answers::entries(fresh::<K>(asked, &set), reply, |state, reply| {
            entry(state, asked.text, &set, reply)
        }),
        _ => {
            let step = handmade::<K>(asked).next(asked.text, &set);
            said(step.next, found::<K>(step.found, reply))
        }
    }
}

fn fresh<K: ItemKind>(asked: Asked<'_>, set: &[bool; 256]) -> ItemIter<K> {
    ItemIter::new(asked.byte(0), asked.byte(1), asked.byte(2), set)
}

fn handmade<K: ItemKind>(asked: Asked<'_>) -> ItemIter<K> {
    ItemIter {
        eol: asked.byte(2),
        sep: asked.byte(3),
        tab: asked.byte(4),
        pos: asked.place,
        needles: [asked.byte(5), asked.byte(6), asked.byte(7)],
        nn: asked.number(0) as usize,
        streaming: asked.byte(1) > 0,
        kind: PhantomData,
    }
}

// The state behind a step that found an item, and that item; nothing at the end.
fn entry<K: ToldKind>(
    state: ItemIter<K>,
    text: &[u8],
    set: &[bool; 256],
    reply: Numbers,
) -> Option<(ItemIter<K>, Numbers)> {
    let step = state.next(text, set);
    let item = step.found.unwrap_or(None)?;
    Some((step.next, K::told(item, reply)))
}

// What a step found.
fn found<K: ToldKind>(found: Result<Option<K::Item>, Refusal>, reply: Numbers) -> Numbers {
    match found {
        Ok(Some(item)) => K::told(item, reply.and(1)),
        Ok(None) => reply.and(2),
        Err(r) => reply.refused(r),
    }
}

fn said<K: ItemKind>(state: ItemIter<K>, reply: Numbers) -> Numbers {
    reply
        .byte(state.eol)
        .byte(state.sep)
        .byte(state.tab)
        .bytes(&state.needles)
        .size(state.nn)
        .flag(state.streaming)
        .size(state.pos)
}
