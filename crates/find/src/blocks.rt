// Searches that look at a block of bytes at a time. A loop over a block tests all its bytes and branches on none, so that a compiler
// makes vector code of it; what is left at the end is searched byte by byte. The small functions serve every search: where a needle
// stands twice in a set, its second test folds away once they are inlined. So a search makes its set beside its loops.
ghost use Rattle.std.specs.Prelude.{◌≡◌, ◌+◌, ◌<◌, ◌≤◌, min, max, length};
ghost use Rattle.search.specs.Promise.{Gives};
ghost use Rattle.search.specs.Search.{Sought, is};
ghost use Rattle.find.specs.Blocks.{of_three, of_twelve, Placed, Clear, Stage, Reaches};

// Three needles; where there are fewer, one is repeated. No array of any length: the tests of one were compiled with branches, at two
// needles 3 to 5 times as slow as these, at near hits up to 2.4 times.
#[derive(Clone, Copy)]
pub struct Three {
    pub a: u8,
    pub b: u8,
    pub c: u8,
}

// Twelve needles, as four times three.
#[derive(Clone, Copy)]
pub struct Twelve {
    pub first: Three,
    pub second: Three,
    pub third: Three,
    pub fourth: Three,
}

// Three, four times.
impl From<Three> for Twelve {
    ghost from_gives = { λ t k. k ≡ record { first = t; second = t; third = t; fourth = t } };

    fn from(t: Three) -> Twelve {
        Twelve {
            first: t,
            second: t,
            third: t,
            fourth: t,
        }
    }
}

// Whether a byte is one of three.
fn is_of_three(x: u8, t: Three) -> bool
    ensures { Gives (of_three t x) result }
{
    (x == t.a) | (x == t.b) | (x == t.c)
}

// Whether a byte is one of twelve.
fn is_of_twelve(x: u8, k: Twelve) -> bool
    ensures { Gives (of_twelve k x) result }
{
    is_of_three(x, k.first)
        | is_of_three(x, k.second)
        | is_of_three(x, k.third)
        | is_of_three(x, k.fourth)
}

// The place `j` within a block of 32 where the byte there, `x`, is one of twelve, else 32.
fn place_of(x: u8, j: u8, k: Twelve) -> u8
    requires { j < 32 }
    ensures { Placed (of_twelve k x) j result }
{
    if is_of_twelve(x, k) { j } else { 32 }
}

// Whether one of three is among the `w` bytes from `i` on. Only the miss is promised: it is a filter.
fn seen(src: &[u8], i: usize, w: usize, t: Three) -> bool
    requires { i + w ≤ length src.now }
    ensures { Clear (of_three t) src.now i w result }
{
    let mut any = false;
    for j in 0..w {
        any |= is_of_three(src[i + j], t);
    }
    any
}

// How far from `i` the first of twelve is, within 32 bytes, else 32. Each hit gives its place, and the least is kept. It is taken here and
// not where the place is found: a function that did both would be compiled with branches, and the loop not to vector code.
fn nearest(src: &[u8], i: usize, k: Twelve) -> u8
    requires { i + 32 ≤ length src.now }
    ensures { Stage (of_twelve k) src.now i (i + 32) (i + result) }
{
    let mut least: u8 = 32;
    for j in 0..32 {
        least = least.min(place_of(src[i + j as usize], j, k));
    }
    least
}

// The first of three from `from` on and before `end`, else `end`: the plain search. (`position` took 13 to 20 % longer on near hits.)
fn upto(src: &[u8], from: usize, end: usize, t: Three) -> usize
    requires { (from ≤ end) × (end ≤ length src.now) }
    ensures { Stage (of_three t) src.now from end result }
{
    for i in from..end {
        if is_of_three(src[i], t) {
            return i;
        }
    }
    end
}

// Where the blocks of `w` bytes end that have none of three: at one that may have one, or where no whole block is left before `end`.
// They are walked by their places, since what is answered is a place: by `chunks_exact` it would be counted beside them.
fn pass(src: &[u8], from: usize, end: usize, w: usize, t: Three) -> usize
    requires { ((from ≤ end) × (end ≤ length src.now)) × (0 < w) }
    ensures { Reaches (of_three t) src.now from end result }
{
    let mut i = from;
    while w <= end - i {
        if seen(src, i, w, t) {
            return i;
        }
        i += w;
    }
    i
}

// Where a search for twelve comes to by blocks of 32 bytes: the first of them, or where no whole block is left. They
// are walked by their places, as in `pass`.
pub fn many(src: &[u8], from: usize, k: Twelve) -> usize
    ensures { Reaches (of_twelve k) src.now from (max from (length src.now)) result }
{
    let len = src.len();
    if len < from {
        return from;
    }
    let mut i = from;
    while 32 <= len - i {
        let m = nearest(src, i, k);
        if m < 32 {
            return i + m as usize;
        }
        i += 32;
    }
    i
}

// The same for three.
fn many_of_three(src: &[u8], from: usize, t: Three) -> usize
    ensures { Reaches (of_three t) src.now from (max from (length src.now)) result }
{
    many(src, from, Twelve::from(t))
}

// How far from `i` the first of three is, within 32 bytes, else 32.
fn nearest_of_three(src: &[u8], i: usize, t: Three) -> u8
    requires { i + 32 ≤ length src.now }
    ensures { Stage (of_three t) src.now i (i + 32) (i + result) }
{
    nearest(src, i, Twelve::from(t))
}

// The first of three at or after `from`, by blocks of 128 bytes, then of sixteen, then byte by byte.
fn by_filter(src: &[u8], from: usize, t: Three) -> usize
    requires { from ≤ length src.now }
    ensures { Sought (of_three t) src.now from result }
{
    let len = src.len();
    let i = pass(src, from, len, 128, t);
    let j = pass(src, i, len, 16, t);
    upto(src, j, len, t)
}

// The first byte equal to `b` at or after `from`, else the length. Eight blocks of sixteen come first, since most hits are near.
pub fn one(src: &[u8], from: usize, b: u8) -> usize
    ensures { Sought (is b) src.now from result }
{
    let len = src.len();
    if len < from {
        return from;
    }
    let t = Three { a: b, b: b, c: b };
    if len - from < 128 {
        return by_filter(src, from, t);
    }
    let near = from + 128;
    let i = pass(src, from, near, 16, t);
    if i < near {
        return upto(src, i, len, t);
    }
    by_filter(src, i, t)
}

// The first of three beyond what is near, by a filter over 64 bytes.
fn far(src: &[u8], from: usize, t: Three) -> usize
    requires { from ≤ length src.now }
    ensures { Sought (of_three t) src.now from result }
{
    let len = src.len();
    let i = pass(src, from, len, 64, t);
    let j = many_of_three(src, i, t);
    upto(src, j, len, t)
}

// The first of three by the least place of one block, and beyond it.
fn near(src: &[u8], from: usize, t: Three) -> usize
    requires { from + 32 ≤ length src.now }
    ensures { Sought (of_three t) src.now from result }
{
    let m = nearest_of_three(src, from, t);
    if m < 32 {
        return from + m as usize;
    }
    far(src, from + 32, t)
}

// The first of three at or after `from`, else the length. Two blocks whose least place is taken come first: near hits are what dense
// notes consist of, and a byte tested alone costs more than one in a block.
pub fn few(src: &[u8], from: usize, t: Three) -> usize
    ensures { Sought (of_three t) src.now from result }
{
    let len = src.len();
    if len < from {
        return from;
    }
    if len - from < 64 {
        return far(src, from, t);
    }
    let m = nearest_of_three(src, from, t);
    if m < 32 {
        return from + m as usize;
    }
    near(src, from + 32, t)
}
