// Continuation frames, after cont.rs: a state by value, one frame a step.
//
// A line's depth is its count of leading markers, each taking one optional separator or tab, never above the cap. A frame at depth d
// starts at the d-th marker and ends at the start of the first line of smaller depth, or at the text's end; frames that close
// together come innermost first, and wait in `pending` until a step drains them.
//
// The scan is streaming: with no frame open one search finds the next marker byte, and lines without one are never walked. Inside,
// the open frames are a lent array and the rest are numbers; the state as a whole is handed over at the step alone.
#![tactic(auto)]

ghost use Rattle.std.specs.Prelude.{◌≤◌, ◌<◌, ◌-◌, length};
ghost use Rattle.search.specs.Promise.{Gives, Steps};
ghost use Rattle.search.specs.Search.{Sought, is};
ghost use Rattle.common.specs.Refusals.{told_span};
ghost use Rattle.cont.specs.Frames.{mark_at, after_mark, marks_from};
ghost use Rattle.common.specs.Entry.{put_at};
ghost use Rattle.cont.specs.Cont.{fresh, stand, closed_frames, turn_on_line, next_turn, first_shut, framing_of, misplaced, drained, stepped, span_of, state_of, answer, state};
ghost use Rattle.cont.specs.Steps.{Peels, Opens, FrameTurned, Scanned, Served};

use common::refusal::Refusal;
use common::span::{MAX_INPUT_LEN, Span};
use find::find_byte;
use search::{is_at, is_blank, line_start, next_line};

// What a frame is read by: the marker byte, the line end, the separator and the tab that a marker may take, and the cap.
#[derive(Clone, Copy)]
pub struct Framing {
    pub byte: u8,
    pub eol: u8,
    pub sep: u8,
    pub tab: u8,
    pub cap: usize,
}

// The fields of the Rust's iterator; the text is lent beside it. The open frames are the first `open_len` cells of `open`,
// outermost first; the closed frames that wait are the cells of `pending` from `pending_idx` up to `pending_len`. C hands a state
// over cell by cell, so each buffer stands whole beside its count.
#[derive(Clone, Copy)]
pub struct ContIter {
    pub byte: u8,
    pub eol: u8,
    pub sep: u8,
    pub tab: u8,
    pub cap: usize,
    pub pos: usize,
    pub open: [u32; ContIter::MAX_DEPTH],
    pub open_len: usize,
    pub pending: [Span; ContIter::MAX_DEPTH],
    pub pending_len: usize,
    pub pending_idx: usize,
}

// What a step answers, and the state after it.
#[derive(Clone, Copy)]
pub struct ContStep {
    pub found: Result<Option<Span>, Refusal>,
    pub next: ContIter,
}

// The open frames that have their marker on a line, and the place behind the last of these markers.
#[derive(Clone, Copy)]
struct Peeled {
    count: usize,
    cur: usize,
}

// One turn of the scan: on from a place, with so many frames open; the frames from a depth on closed at a place, and on from
// another; or nothing left, at a place.
#[derive(Clone, Copy)]
enum Turn {
    Go(usize, usize),
    Close(usize, usize, usize),
    Stop(usize),
}

// What a scan closes: the frames from `from` up to `held`, at `end`; it goes on from `pos`. Where nothing is left, `from` is `held`.
#[derive(Clone, Copy)]
struct Closed {
    from: usize,
    held: usize,
    end: usize,
    pos: usize,
}

// Whether a marker stands at `p`, in a line that ends at `le`.
fn marker_at(src: &[u8], m: Framing, p: usize, le: usize) -> bool
    ensures { Gives (mark_at m src.now le p) result }
{
    p < le && is_at(src, p, m.byte)
}

// The place just past a marker at `p`: the marker byte and one optional separator or tab.
fn consume_marker(src: &[u8], m: Framing, p: usize, le: usize) -> usize
    requires p_lt_le { p < le }
    requires le_in_bounds { le ≤ length src.now }
    ensures { Gives (after_mark m src.now le p) result }
{
    if p + 1 < le && is_blank(src[p + 1], m.sep, m.tab) {
        p + 2
    } else {
        p + 1
    }
}

// How many of the `held` open frames have their marker on the line that begins at `ls`.
fn peel(src: &[u8], m: Framing, ls: usize, le: usize, held: usize) -> Peeled
    requires { le ≤ length src.now }
    ensures { Peels m src.now le ls held result }
{
    let mut cur = ls;
    let mut count = 0;
    while count < held && marker_at(src, m, cur, le) {
        cur = consume_marker(src, m, cur, le);
        count += 1;
    }
    Peeled { count, cur }
}

// Further markers from `from` on open new frames, up to the cap; markers past it are ordinary content. The count of open frames
// stays below the cap at each store, and the cap is at most 32.
fn open_from(
    src: &[u8],
    m: Framing,
    from: usize,
    le: usize,
    open: &mut [u32; ContIter::MAX_DEPTH],
    held: usize,
) -> usize
    requires cap_bound { m.cap ≤ 32 }
    requires le_in_bounds { le ≤ length src.now }
    requires src_len_bound { length src.now ≤ 4294967295 }
    ensures { Opens (marks_from m src.now le (m.cap - held) from) held «open».old «open».new result }
{
    let mut cur = from;
    let mut n = held;
    while n < m.cap && marker_at(src, m, cur, le) {
        open[n] = cur as u32;
        n += 1;
        cur = consume_marker(src, m, cur, le);
    }
    n
}

// The marker line at `ls`: the frames from the first that lacks its marker close at the line's start. Where none does, the markers
// behind theirs open new ones. The line that closed some has no further marker, so it opens none.
fn line_turn(
    src: &[u8],
    m: Framing,
    ls: usize,
    open: &mut [u32; ContIter::MAX_DEPTH],
    held: usize,
) -> Turn
    requires cap_bound { m.cap ≤ 32 }
    requires held_bound { held ≤ 32 }
    requires ls_in_bounds { ls < length src.now }
    requires src_len_bound { length src.now ≤ 4294967295 }
    ensures { FrameTurned (turn_on_line m src.now ls «open».old held) (length src.now) ls held
        «open».new result }
{
    let le = find_byte(src, ls, m.eol);
    let n = next_line(src.len(), le);
    let Peeled { count, cur } = peel(src, m, ls, le, held);
    if count < held {
        return Turn::Close(count, ls, n);
    }
    Turn::Go(n, open_from(src, m, cur, le, open, held))
}

// The next marker byte at or after `pos`, else the length. A hit at the place itself needs no search.
fn next_marker(src: &[u8], pos: usize, byte: u8) -> usize
    ensures { Sought (is byte) src.now pos result }
{
    if is_at(src, pos, byte) {
        pos
    } else {
        find_byte(src, pos, byte)
    }
}

// With frames open, `pos` is the start of the line that must continue them: a line that does not begin with the marker closes
// them all there, and the text's end flushes them. With none open, a fresh run must begin its line.
fn next_turn(
    src: &[u8],
    m: Framing,
    pos: usize,
    open: &mut [u32; ContIter::MAX_DEPTH],
    held: usize,
) -> Turn
    requires cap_bound { m.cap ≤ 32 }
    requires held_bound { held ≤ 32 }
    requires pos_in_bounds { pos ≤ length src.now }
    requires src_len_bound { length src.now ≤ 4294967295 }
    ensures { FrameTurned (next_turn m src.now (stand pos «open».old held)) (length src.now) pos held
        «open».new result }
{
    let len = src.len();
    if 0 < held {
        if len <= pos {
            return Turn::Close(0, len, pos);
        }
        if is_at(src, pos, m.byte) {
            return line_turn(src, m, pos, open, held);
        }
        return Turn::Close(0, pos, find_byte(src, pos, m.byte));
    }
    let q = next_marker(src, pos, m.byte);
    if len <= q {
        return Turn::Stop(pos);
    }
    if line_start(src, q, m.eol) {
        return line_turn(src, m, q, open, held);
    }
    Turn::Go(q + 1, held)
}

// Turns until frames close or nothing is left.
fn scan(
    src: &[u8],
    m: Framing,
    from: usize,
    open: &mut [u32; ContIter::MAX_DEPTH],
    held: usize,
) -> Closed
    requires cap_bound { m.cap ≤ 32 }
    requires held_bound { held ≤ 32 }
    requires from_in_bounds { from ≤ length src.now }
    requires src_len_bound { length src.now ≤ 4294967295 }
    ensures { Scanned (first_shut m src.now (stand from «open».old held)) (length src.now)
        «open».new result }
{
    let mut pos = from;
    let mut n = held;
    loop {
        match next_turn(src, m, pos, open, n) {
            Turn::Go(p, k) => {
                pos = p;
                n = k;
            }
            Turn::Close(k, e, p) => {
                return Closed {
                    from: k,
                    held: n,
                    end: e,
                    pos: p,
                };
            }
            Turn::Stop(p) => {
                return Closed {
                    from: n,
                    held: n,
                    end: p,
                    pos: p,
                };
            }
        }
    }
}

// The frames from `from` up to `held`, closed at `end`, innermost first, in the first cells of `pending`. They are 32 at the most,
// since no more are open.
fn close_from(
    open: &[u32; ContIter::MAX_DEPTH],
    from: usize,
    held: usize,
    end: u32,
    pending: [Span; ContIter::MAX_DEPTH],
) -> [Span; ContIter::MAX_DEPTH]
    requires ordered { from ≤ held }
    requires held_bound { held ≤ 32 }
    ensures { Gives (put_at 0 (closed_frames «open».now end from (held - from)) pending) result }
{
    let mut out = pending;
    for n in 0..held - from {
        out[n] = Span {
            start: open[held - 1 - n],
            end,
        };
    }
    out
}

impl ContIter {
    pub const MAX_DEPTH: usize = 32;

    pub fn new(byte: u8, eol: u8, sep: u8, tab: u8, nest: usize) -> Self
        ensures { Gives (fresh byte eol sep tab nest) result }
    {
        ContIter {
            byte,
            eol,
            sep,
            tab,
            cap: nest.min(ContIter::MAX_DEPTH),
            pos: 0,
            open: [0u32; ContIter::MAX_DEPTH],
            open_len: 0,
            pending: [Span { start: 0, end: 0 }; ContIter::MAX_DEPTH],
            pending_len: 0,
            pending_idx: 0,
        }
    }

    // What a frame of this state is read by.
    fn framing(self) -> Framing
        ensures { Gives (framing_of self) result }
    {
        Framing {
            byte: self.byte,
            eol: self.eol,
            sep: self.sep,
            tab: self.tab,
            cap: self.cap,
        }
    }

    // Whether the place is past the text, the cap or a count over 32, or the pending index over the pending count.
    fn is_misplaced(self, src: &[u8]) -> bool
        ensures { Gives (misplaced self src.now) result }
    {
        src.len() < self.pos
            || ContIter::MAX_DEPTH < self.cap
            || ContIter::MAX_DEPTH < self.open_len
            || ContIter::MAX_DEPTH < self.pending_len
            || self.pending_len < self.pending_idx
    }

    // The next pending frame.
    fn drain(self) -> ContStep
        requires pending_idx_bound { self.pending_idx < self.pending_len }
        requires pending_len_bound { self.pending_len ≤ 32 }
        ensures { Steps (span_of (drained self)) (state_of (drained self)) (told_span result.found) result.next }
    {
        let idx = self.pending_idx;
        ContStep {
            found: Ok(Some(self.pending[idx])),
            next: ContIter {
                pending_idx: idx + 1,
                ..self
            },
        }
    }

    // A pending frame goes first. Where none is pending, the scan closes frames, and the first of these goes.
    fn step(self, src: &[u8]) -> ContStep
        requires { Served self src.now }
        ensures { Steps (span_of (stepped self src.now)) (state_of (stepped self src.now)) (told_span result.found)
            result.next }
    {
        if self.pending_idx < self.pending_len {
            return self.drain();
        }
        let mut open = self.open;
        let Closed {
            from,
            held,
            end,
            pos,
        } = scan(src, self.framing(), self.pos, &mut open, self.open_len);
        let pending = close_from(&open, from, held, end as u32, self.pending);
        let count = held - from;
        let next = ContIter {
            pos,
            open,
            open_len: from,
            pending,
            pending_len: count,
            pending_idx: 0,
            ..self
        };
        if 0 < count {
            return next.drain();
        }
        ContStep {
            found: Ok(None),
            next,
        }
    }

    pub fn next(self, src: &[u8]) -> ContStep
        ensures { Steps (answer self src.now) (state self src.now) (told_span result.found) result.next }
    {
        if src.len() > MAX_INPUT_LEN {
            return ContStep {
                found: Err(Refusal::TextTooLong),
                next: self,
            };
        }
        if self.is_misplaced(src) {
            return ContStep {
                found: Err(Refusal::PlaceOutside),
                next: self,
            };
        }
        self.step(src)
    }
}
