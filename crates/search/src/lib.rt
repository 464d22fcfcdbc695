// Runs of a byte and of blanks, forward and back, and lines. They take any text and any place, and refuse nothing: from a place past the
// text each answers that place.
#![tactic(auto)]

ghost use Rattle.std.specs.Prelude.{◌+◌, ◌<◌, min, leb, get_or};
ghost use Rattle.search.specs.Promise.{Gives};
ghost use Rattle.search.specs.Search.{Sought, find, is, either, digit, other, holds, back, line_start, next_line};

// The end of the run of `b` that begins at `from`: the first byte that is another, else the length.
pub fn run_end(src: &[u8], from: usize, b: u8) -> usize
    ensures { Sought (other (is b)) src.now from result }
{
    let Some(rest) = src.get(from..) else {
        return from;
    };
    let run = rest.iter().position(|x| *x != b);
    from + run.unwrap_or(rest.len())
}

// The same within a stretch that ends at `end`: the walk goes no further, so that what stands behind is not walked for every stretch.
pub fn run_within(src: &[u8], from: usize, end: usize, b: u8) -> usize
    ensures { Gives (min (find (other (is b)) src.now from) end) result }
{
    run_end(&src[..end.min(src.len())], from, b).min(end)
}

// Whether a byte is a separator or a tab.
pub fn is_blank(x: u8, sep: u8, tab: u8) -> bool
    ensures { Gives (either sep tab x) result }
{
    x == sep || x == tab
}

// Whether a byte is an ASCII digit.
pub fn is_digit(x: u8) -> bool
    ensures { Gives (digit x) result }
{
    x.is_ascii_digit()
}

// The end of the run of separators and tabs that begins at `from`.
pub fn blank_end(src: &[u8], from: usize, sep: u8, tab: u8) -> usize
    ensures { Sought (other (either sep tab)) src.now from result }
{
    let Some(rest) = src.get(from..) else {
        return from;
    };
    let run = rest.iter().position(|x| !is_blank(*x, sep, tab));
    from + run.unwrap_or(rest.len())
}

// Whether only separators and tabs stand from `from` up to `end`, which is within the text. The walk goes no further.
pub fn blank_within(src: &[u8], from: usize, end: usize, sep: u8, tab: u8) -> bool
    ensures { Gives (leb end (find (other (either sep tab)) src.now from)) result }
{
    end <= blank_end(&src[..end.min(src.len())], from, sep, tab)
}

// The length of the run of `b` that ends just before `pos`; before a place past the text there is none.
pub fn run_before(src: &[u8], pos: usize, b: u8) -> usize
    ensures { Gives (back (is b) src.now pos) result }
{
    let Some(front) = src.get(..pos) else {
        return 0;
    };
    front.iter().rev().take_while(|x| **x == b).count()
}

// Whether the text has the byte `b` at place `k`.
pub fn is_at(src: &[u8], k: usize, b: u8) -> bool
    ensures { Gives (holds (is b) src.now k) result }
{
    src.get(k) == Some(&b)
}

// Whether a line begins at `p`: at place 0, or after a line end.
pub fn line_start(src: &[u8], p: usize, eol: u8) -> bool
    ensures { Gives (line_start eol src.now p) result }
{
    p == 0 || is_at(src, p - 1, eol)
}

// The place after a line's end `e`, where the next line begins, in a text of `len` bytes.
pub fn next_line(len: usize, e: usize) -> usize
    ensures { Gives (next_line len e) result }
{
    if e < len { e + 1 } else { len }
}

// The lesser of two numbers.
pub fn lesser(a: usize, b: usize) -> usize
    ensures { Gives (min a b) result }
{
    a.min(b)
}

// The byte at place `i`, else 0.
pub fn byte_at(src: &[u8], i: usize) -> u8
    ensures { Gives (get_or src.now i 0) result }
{
    src.get(i).copied().unwrap_or(0)
}
