// A list in bytes as rows of two numbers, a region's start and its end, four bytes each.
ghost use Rattle.std.specs.Prelude.{[], ◌∷◌, ◌+◌, ◌-◌, ◌*◌, ◌≤◌, ◌<◌, length, get_or};
ghost use Rattle.search.specs.Promise.{Gives};
ghost use Rattle.common.specs.Entry.{flatten, wide};
ghost use Rattle.common.specs.Lists.{RowPut};
ghost use Rattle.region.specs.Region.{keep_before};
ghost use Rattle.cells.specs.Bytes.{four, cells, row_bytes};
ghost use Rattle.amend.specs.Amend.{moved_by};
ghost use Rattle.amend.specs.Amended.{regions_in};
ghost use Rattle.amend.specs.Parts.{Orderly, regions_between, Moves, Copies, PutRows};
ghost use Rattle.amending.specs.Amending.{listed_bytes};
ghost use Rattle.amending.specs.ByteParts.{RowBytesFit};

use cells::ROW;
use cells::reply::put_numbers;
use common::list::{END, START, WIDE};
use cover::shape;

// The number at column `j` of row `i`.
pub(crate) fn number(list: &[u8], i: usize, j: usize) -> usize
    requires { i * wide + j < length (cells list.now) }
    ensures { Gives (get_or (cells list.now) (i * wide + j) 0) result }
{
    shape::number(list, i * WIDE + j)
}

// How many regions start before `k`. They are sorted, so that halving finds it.
pub(crate) fn starts_before(list: &[u8], count: usize, k: usize) -> usize
    requires { Orderly (cells list.now) count 4294967295 }
    ensures { Gives (length (keep_before k (regions_in count (cells list.now)))) result }
{
    let mut low = 0;
    let mut high = count;
    while low < high {
        let middle = low + (high - low) / 2;
        if number(list, middle, START) < k {
            low = middle + 1;
            continue;
        }
        high = middle;
    }
    low
}

// Writes row `n`, and answers the next row's number.
fn put(out: &mut [u8], n: usize, start: usize, end: usize) -> usize
    requires { n * row_bytes + row_bytes ≤ length out.old }
    ensures { RowPut (flatten four (start ∷ end ∷ [])) n out.old out.new result }
{
    let all = [start, end];
    put_numbers(out, n * ROW, &all);
    n + 1
}

// Writes row `n` with both places moved up by `by`.
pub(crate) fn put_moved(out: &mut [u8], n: usize, start: usize, end: usize, by: usize) -> usize
    requires { RowBytesFit n (start + by) (end + by) out.old }
    ensures { RowPut (flatten four ((start + by) ∷ (end + by) ∷ [])) n out.old out.new result }
{
    put(out, n, start + by, end + by)
}

// A place, lowered by `down` and raised by `up`: in this order, so that no step leaves the range.
fn moved(place: usize, down: usize, up: usize) -> usize
    requires { Moves place down up }
    ensures { Gives (place + up - down) result }
{
    place - down + up
}

// Copies the rows from `from` up to `to`, each place lowered by `down` and raised by `up`, to row `into` of `out` and on. Answers
// the row after them.
pub(crate) fn copy_rows(
    list: &[u8],
    from: usize,
    to: usize,
    down: usize,
    up: usize,
    out: &mut [u8],
    into: usize,
) -> usize
    requires { Copies row_bytes (cells list.now) from to down up out.old into }
    ensures { PutRows listed_bytes row_bytes (moved_by down up (regions_between from to (cells list.now))) into
        out.old out.new result }
{
    let mut i = from;
    let mut n = into;
    while i < to {
        let start = moved(number(list, i, START), down, up);
        let end = moved(number(list, i, END), down, up);
        n = put(out, n, start, end);
        i += 1;
    }
    n
}
