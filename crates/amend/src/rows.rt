// A list as rows of numbers: a region's start and its end.
ghost use Rattle.std.specs.Prelude.{[], ◌∷◌, ◌+◌, ◌-◌, ◌*◌, ◌<◌, length, get_or};
ghost use Rattle.search.specs.Promise.{Gives};
ghost use Rattle.region.specs.Region.{keep_before, row};
ghost use Rattle.common.specs.Lists.{RowPut};
ghost use Rattle.region.specs.Room.{RowFits};
ghost use Rattle.amend.specs.Amend.{moved_by};
ghost use Rattle.amend.specs.Amended.{regions_in};
ghost use Rattle.amend.specs.Parts.{Orderly, regions_between, Moves, Copies, PutRows};
ghost use Rattle.common.specs.Entry.{wide};

use common::list::{END, START, WIDE};

// A number of a list as a place.
fn place_of(number: u32) -> usize
    ensures { Gives number result }
{
    number as usize
}

// The number at column `j` of row `i`.
pub(crate) fn number(list: &[u32], i: usize, j: usize) -> usize
    requires { i * wide + j < length list.now }
    ensures { Gives (get_or list.now (i * wide + j) 0) result }
{
    place_of(list[i * WIDE + j])
}

// How many regions start before `k`. They are sorted, so that halving finds it.
pub(crate) fn starts_before(list: &[u32], count: usize, k: usize) -> usize
    requires { Orderly list.now count 4294967295 }
    ensures { Gives (length (keep_before k (regions_in count list.now))) result }
{
    let mut low = 0;
    let mut high = count;
    while low < high {
        let middle = low + (high - low) / 2;
        if number(list, middle, START) < k {
            low = middle + 1;
            continue;
        }
        high = middle;
    }
    low
}

// Writes row `n`, and answers the next row's number.
fn put(out: &mut [u32], n: usize, start: usize, end: usize) -> usize
    requires { RowFits n start end out.old }
    ensures { RowPut (start ∷ end ∷ []) n out.old out.new result }
{
    let k = n * WIDE;
    out[k] = start as u32;
    out[k + END] = end as u32;
    n + 1
}

// Writes row `n` with both places moved up by `by`.
pub(crate) fn put_moved(out: &mut [u32], n: usize, start: usize, end: usize, by: usize) -> usize
    requires { RowFits n (start + by) (end + by) out.old }
    ensures { RowPut ((start + by) ∷ (end + by) ∷ []) n out.old out.new result }
{
    put(out, n, start + by, end + by)
}

// A place, lowered by `down` and raised by `up`: in this order, so that no step leaves the range.
fn moved(place: usize, down: usize, up: usize) -> usize
    requires { Moves place down up }
    ensures { Gives (place + up - down) result }
{
    place - down + up
}

// Copies the rows from `from` up to `to`, each place lowered by `down` and raised by `up`, to row `into` of `out` and on. Answers
// the row after them.
pub(crate) fn copy_rows(
    list: &[u32],
    from: usize,
    to: usize,
    down: usize,
    up: usize,
    out: &mut [u32],
    into: usize,
) -> usize
    requires { Copies wide list.now from to down up out.old into }
    ensures { PutRows row wide (moved_by down up (regions_between from to list.now)) into out.old out.new result }
{
    let mut i = from;
    let mut n = into;
    while i < to {
        let start = moved(number(list, i, START), down, up);
        let end = moved(number(list, i, END), down, up);
        n = put(out, n, start, end);
        i += 1;
    }
    n
}
