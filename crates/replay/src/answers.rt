// Answers in a list's terms that the leaves and the scanners alone give.
use common::refusal::Refusal;
use common::span::Span;
use stored::answers::STEPS;
use stored::numbers::Numbers;

pub(crate) fn answer(a: Result<usize, Refusal>, reply: Numbers) -> Numbers {
    match a {
        Ok(v) => reply.value(v),
        Err(r) => reply.refused(r),
    }
}

// What a search found: the length, or a place past it, is none.
pub(crate) fn sought(place: usize, length: usize, reply: Numbers) -> Numbers {
    if place < length {
        reply.value(place)
    } else {
        reply.and(2)
    }
}

pub(crate) fn span(s: Span, reply: Numbers) -> Numbers {
    reply.and(s.start).and(s.end)
}

// What a scanner of spans found.
pub(crate) fn span_found(f: Result<Option<Span>, Refusal>, reply: Numbers) -> Numbers {
    match f {
        Ok(Some(s)) => span(s, reply.and(1)),
        Ok(None) => reply.and(2),
        Err(r) => reply.refused(r),
    }
}

// The entries that a scanner's steps add one after the other, and before them how many they are. A step adds one and gives the state behind it,
// or nothing at the end.
pub(crate) fn entries<S: Drop, F: Fn(S, Numbers) -> Option<(S, Numbers)>>(
    fresh: S,
    before: Numbers,
    step: F,
) -> Numbers
    requires { F.IsAlwaysCallable step }
{
    let mut state = fresh;
    let mut reply = before.entries();
    for count in 0..STEPS {
        let Some((next, more)) = step(state, reply) else {
            return reply.counted(count);
        };
        state = next;
        reply = more;
    }
    reply.counted(STEPS)
}
