// The fence scanner, after fence.rs: a state by value, one span a step.
//
// A fence begins its line, has a run of at least the minimum and at least 1, and no further fence byte on that line. It is closed by
// the first later line whose run is as long or longer and whose rest is separators or tabs. The span ends after the closing line's
// line end, or at the text's end, and the scan goes on from there.
//
// The scan is streaming: one search finds candidate fence bytes, and a look at the byte before keeps only those that begin a line,
// for opening and for closing fences alike; content lines are never walked.
#![tactic(auto)]

ghost use Rattle.std.specs.Prelude.{◌≡◌, true, ◌≤◌, length};
ghost use Rattle.search.specs.Promise.{Gives, Steps};
ghost use Rattle.search.specs.Search.{holds, is};
ghost use Rattle.common.specs.Refusals.{told_span};
ghost use Rattle.common.specs.Turn.{first_turn};
ghost use Rattle.fence.specs.Fence.{fresh, at, close_end, open_line, open_turn, view, rests, answer, state};

use common::refusal::Refusal;
use common::span::{MAX_INPUT_LEN, Span};
use find::{find_byte, find_either};
use lines::fence_tests::run_count;
use search::{blank_within, line_start, next_line, run_end};

// The fields of the Rust's iterator; the text is lent beside it.
#[derive(Clone, Copy)]
pub struct FenceIter {
    pub byte: u8,
    pub min: u8,
    pub eol: u8,
    pub sep: u8,
    pub tab: u8,
    pub pos: usize,
}

// What a step answers, and the state after it, both by value: C reads them.
#[derive(Clone, Copy)]
pub struct FenceStep {
    pub found: Result<Option<Span>, Refusal>,
    pub next: FenceIter,
}

// One turn of the scan: on from a later place; no fence byte left; or a fence. It may only go on, so it is no Option.
#[derive(Clone, Copy)]
enum Turn {
    Go(usize),
    Stop(usize),
    Found(Span),
}

impl FenceIter {
    pub fn new(byte: u8, min: u8, eol: u8, sep: u8, tab: u8) -> Self
        ensures { Gives (fresh byte min eol sep tab) result }
    {
        FenceIter {
            byte,
            min,
            eol,
            sep,
            tab,
            pos: 0,
        }
    }

    fn at(self, pos: usize) -> Self
        ensures { Gives (at self pos) result }
    {
        FenceIter { pos, ..self }
    }

    // Where the span of a fence ends whose opening run is `count` long, searched from `from`.
    fn close(self, src: &[u8], count: usize, from: usize) -> usize
        ensures { Gives (close_end self count src.now from) result }
    {
        let mut search = from;
        loop {
            let q = find_byte(src, search, self.byte);
            if q >= src.len() {
                return src.len();
            }
            if !line_start(src, q, self.eol) {
                search = q + 1;
                continue;
            }
            let j = run_end(src, q, self.byte);
            let e = find_byte(src, j, self.eol);
            let n = next_line(src.len(), e);
            if run_count(q, j) >= count && blank_within(src, j, e, self.sep, self.tab) {
                return n;
            }
            search = n;
        }
    }

    // A line that begins with the fence byte at `p`: a fence, or nothing more on that line, since an opening fence begins its line.
    fn open_at(self, src: &[u8], p: usize) -> Turn
        requires here { holds (is self.byte) src.now p ≡ true }
        requires src_len_bound { length src.now ≤ 4294967295 }
        ensures { Gives (open_line self src.now p) (view result) }
    {
        let j = run_end(src, p, self.byte);
        let e = find_byte(src, j, self.eol);
        let n = next_line(src.len(), e);
        let count = run_count(p, j);
        // One search for either, so that it never goes beyond the line.
        if count < self.min as usize || find_either(src, j, self.byte, self.eol) < e {
            return Turn::Go(n);
        }
        Turn::Found(Span {
            start: p as u32,
            end: self.close(src, count, n) as u32,
        })
    }

    fn open_turn(self, src: &[u8], q: usize) -> Turn
        requires { length src.now ≤ 4294967295 }
        ensures { Gives (open_turn self src.now q) (view result) }
    {
        let p = find_byte(src, q, self.byte);
        if p >= src.len() {
            Turn::Stop(q)
        } else if line_start(src, p, self.eol) {
            self.open_at(src, p)
        } else {
            Turn::Go(p + 1)
        }
    }

    // The first fence from the state's place on, if there is one, and the place that the scan goes on from.
    fn first_open(self, src: &[u8]) -> (Option<Span>, usize)
        requires pos_in_bounds { self.pos ≤ length src.now }
        requires src_len_bound { length src.now ≤ 4294967295 }
        ensures { Gives (first_turn (open_turn self src.now) (length src.now) self.pos) (rests result.0 result.1) }
    {
        let mut q = self.pos;
        loop {
            match self.open_turn(src, q) {
                Turn::Go(n) => q = n,
                Turn::Stop(v) => return (None, v),
                Turn::Found(f) => return (Some(f), f.end as usize),
            }
        }
    }

    pub fn next(self, src: &[u8]) -> FenceStep
        ensures { Steps (answer self src.now) (state self src.now) (told_span result.found) result.next }
    {
        if src.len() > MAX_INPUT_LEN {
            return FenceStep {
                found: Err(Refusal::TextTooLong),
                next: self,
            };
        }
        if self.pos > src.len() {
            return FenceStep {
                found: Err(Refusal::PlaceOutside),
                next: self,
            };
        }
        let (found, pos) = self.first_open(src);
        FenceStep {
            found: Ok(found),
            next: self.at(pos),
        }
    }
}
