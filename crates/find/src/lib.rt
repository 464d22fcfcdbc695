// The searches for a byte, or for one of a few. They take any text and any place, and refuse nothing: from a place past the text each
// answers that place.
#![tactic(auto)]

mod blocks; // searches by blocks of bytes

ghost use Rattle.std.specs.Prelude.{◌+◌, ◌<◌, max, take};
ghost use Rattle.search.specs.Promise.{Gives};
ghost use Rattle.search.specs.Search.{Sought, is, either, one_of};
ghost use Rattle.find.specs.Blocks.{needle_at, trio_of, NeedleCount};

use crate::blocks::{Three, Twelve};
use search::byte_at;

// The first byte equal to `b` at or after `from`, else the length.
pub fn find_byte(src: &[u8], from: usize, b: u8) -> usize
    ensures { Sought (is b) src.now from result }
{
    blocks::one(src, from, b)
}

// The first byte equal to `b` or to `c` at or after `from`, else the length: a needle or a line end in one search.
pub fn find_either(src: &[u8], from: usize, b: u8, c: u8) -> usize
    ensures { Sought (either b c) src.now from result }
{
    blocks::few(src, from, Three { a: b, b: c, c: c })
}

// Whether `x` is one of the first `n` needles; a count over their number acts as their number. (`contains` takes
// up to 1.9 times as long where the byte is among the last of eleven.)
pub fn is_one_of(needles: &[u8], n: usize, x: u8) -> bool
    ensures { Gives (one_of (take n needles.now) x) result }
{
    needles[..n.min(needles.len())].iter().any(|y| x == *y)
}

// The first of the needles, byte by byte: `position` took 13 to 20 % longer on near hits.
fn find_one_of(needles: &[u8], n: usize, src: &[u8], from: usize) -> usize
    ensures { Sought (one_of (take n needles.now)) src.now from result }
{
    for i in from..src.len() {
        if is_one_of(needles, n, src[i]) {
            return i;
        }
    }
    from.max(src.len())
}

// The needle at place `j` of the first `n`, else the first of them: so a fixed number of places is filled.
fn needle(needles: &[u8], n: usize, j: usize) -> u8
    requires { 0 < n }
    ensures { Gives (needle_at (take n needles.now) j) result }
{
    if j < n.min(needles.len()) {
        needles[j]
    } else {
        byte_at(needles, 0)
    }
}

// The needles at three places from `k` on.
fn trio(needles: &[u8], n: usize, k: usize) -> Three
    requires { (0 < n) × (k < 10) }
    ensures { Gives (trio_of (take n needles.now) k) result }
{
    Three {
        a: needle(needles, n, k),
        b: needle(needles, n, k + 1),
        c: needle(needles, n, k + 2),
    }
}

// The first of one, two or three needles.
fn find_few(needles: &[u8], n: usize, src: &[u8], from: usize) -> usize
    requires { NeedleCount needles.now n 3 }
    ensures { Sought (one_of (take n needles.now)) src.now from result }
{
    if n == 1 {
        return find_byte(src, from, needles[0]);
    }
    blocks::few(src, from, trio(needles, n, 0))
}

// The first of four to twelve needles: six places where they are enough, twelve else.
fn find_many(needles: &[u8], n: usize, src: &[u8], from: usize) -> usize
    requires { NeedleCount needles.now n 12 }
    ensures { Sought (one_of (take n needles.now)) src.now from result }
{
    let p = trio(needles, n, 0);
    let q = trio(needles, n, 3);
    if n <= 6 {
        let six = Twelve {
            first: p,
            second: q,
            third: p,
            fourth: q,
        };
        let i = blocks::many(src, from, six);
        return find_one_of(needles, n, src, i);
    }
    let twelve = Twelve {
        first: p,
        second: q,
        third: trio(needles, n, 6),
        fourth: trio(needles, n, 9),
    };
    let i = blocks::many(src, from, twelve);
    find_one_of(needles, n, src, i)
}

// The first byte at or after `from` that is one of the first `n` needles, else the length; a count over their number acts as their number.
pub fn find_any_of<const N: usize>(needles: &[u8; N], n: usize, src: &[u8], from: usize) -> usize
    ensures { Sought (one_of (take n needles.now)) src.now from result }
{
    match n.min(N) {
        0 => from.max(src.len()),
        1..=3 => find_few(needles, n, src, from),
        4..=12 => find_many(needles, n, src, from),
        _ => find_one_of(needles, n, src, from),
    }
}
