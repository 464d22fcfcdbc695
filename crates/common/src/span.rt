// Spans, and the stretch of text that one names.
ghost use Rattle.search.specs.Promise.{Gives};
ghost use Rattle.common.specs.Content.{stretch, Stretch};

use crate::refusal::Refusal;

// The most bytes a text may have: spans are 32-bit numbers.
pub const MAX_INPUT_LEN: usize = 4294967295;

#[derive(Clone, Copy, PartialEq, Eq, Debug)]
pub struct Span {
    pub start: u32,
    pub end: u32,
}

// A stretch of a text: from `start` up to, not including, `end`.
#[derive(Clone, Copy, PartialEq, Eq, Debug)]
pub struct Bounds {
    pub start: usize,
    pub end: usize,
}

// Where a span's stretch lies in a text of `len` bytes: the span's own bounds; where it is reversed or ends past the text, empty
// at its start, or at the text's end where the start is past that.
pub fn content_bounds(len: usize, span: Span) -> Bounds
    ensures { Gives (stretch len span.start span.end) result }
{
    let start = span.start as usize;
    let end = span.end as usize;
    if start <= end && end <= len {
        return Bounds { start, end };
    }
    let at = start.min(len);
    Bounds { start: at, end: at }
}

// The stretch itself: the caller's own bytes, no copy. It refuses nothing.
pub fn content(text: &[u8], span: Span) -> &[u8]
    ensures { Stretch text.entry span.start span.end result }
{
    let Bounds { start, end } = content_bounds(text.len(), span);
    &text[start..end]
}
