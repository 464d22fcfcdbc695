// The shape of a list: what an amendment and a work sheet ask of the regions that they are given; and a region of it.
ghost use Rattle.std.specs.Prelude.{ℕ, ◌*◌, ◌≤◌, length, get_or};
ghost use Rattle.search.specs.Promise.{Gives};
ghost use Rattle.common.specs.Entry.{rows, room, shaped, wide};
ghost use Rattle.cover.specs.Shape.{misshapen, region_at};

use cells::Piece;
use common::list::{END, WIDE};
use common::span::Span;

// The number at place `i`, else 0.
pub fn number<T: Piece>(list: &[T], i: usize) -> usize
    ensures { Gives (get_or (T.numbers list.now) i 0) result }
{
    T::number(list, i) as usize
}

// Whether the first `count` regions are sorted, apart, none of them empty, and within `len`.
fn in_order<T: Piece>(list: &[T], count: usize, len: usize) -> bool
    requires count_fits { count ≤ room wide (T.numbers list.now) }
    requires list_fits { length (T.numbers list.now) ≤ 18446744073709551615 }
    ensures { Gives (shaped 0 len (rows wide count (T.numbers list.now))) result }
{
    let mut low = 0;
    for k in 0..count {
        let start = number(list, k * WIDE);
        let end = number(list, k * WIDE + END);
        if start < low || end <= start || len < end {
            return false;
        }
        low = end;
    }
    true
}

// Whether the stated count is over the list's room, or the regions are no list of a text of `len` bytes.
pub fn is_misshapen<T: Piece>(list: &[T], count: usize, len: usize) -> bool
    ensures { Gives (misshapen (T.numbers list.now) count len) result }
{
    T::count(list) / WIDE < count || !in_order(list, count, len)
}

// Region `k` of a list; a list that has no such row gives one of no bytes.
pub fn region_at<T: Piece>(list: &[T], k: usize) -> Span
    ensures { Gives (region_at (T.numbers list.now) k) result }
{
    if k < T::count(list) / WIDE {
        Span {
            start: T::number(list, k * WIDE),
            end: T::number(list, k * WIDE + END),
        }
    } else {
        Span { start: 0, end: 0 }
    }
}
