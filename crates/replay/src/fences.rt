// Section 2: the fence scanner.
use crate::answers;
use common::span::Span;
use fence::FenceIter;
use stored::asked::Asked;
use stored::numbers::Numbers;

// A fresh state, all spans that it yields, or a step of the state at a place.
pub(crate) fn ask(asked: Asked<'_>, reply: Numbers) -> Numbers {
    let fresh = FenceIter::new(
        asked.byte(0),
        asked.byte(1),
        asked.byte(2),
        asked.byte(3),
        asked.byte(4),
    );
    match asked.letter() {
        b'f' => state(fresh, reply.and(1)),
        b'r' => run(fresh, asked.text, reply),
        _ => {
            let pos = asked.place;
            step(FenceIter { pos, ..fresh }, asked.text, reply)
        }
    }
}

fn state(state: FenceIter, reply: Numbers) -> Numbers {
    reply
        .byte(state.byte)
        .byte(state.min)
        .byte(state.eol)
        .byte(state.sep)
        .byte(state.tab)
        .size(state.pos)
}

fn step(from: FenceIter, text: &[u8], reply: Numbers) -> Numbers {
    let step = from.next(text);
    let found = step.found;
    state(step.next, answers::span_found(found, reply))
}

fn run(fresh: FenceIter, text: &[u8], reply: Numbers) -> Numbers {
    answers::entries(fresh, reply, |state, reply| {
        let step = state.next(text);
        let found = step.found;
        let Ok(Some(span)) = found else {
            return None;
        };
        Some((step.next, answers::span(span, reply)))
    })
}
