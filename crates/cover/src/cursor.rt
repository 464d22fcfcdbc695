// A cursor over a list of regions, which tells what is covered. It only moves forward, so that a run of places that never fall costs
// one pass over the list.
ghost use Rattle.std.specs.Prelude.{ℕ, ◌≤◌, length};
ghost use Rattle.search.specs.Promise.{Gives, Steps};
ghost use Rattle.common.specs.Refusals.{told_found};
ghost use Rattle.common.specs.Entry.{room, wide};
ghost use Rattle.cover.specs.Cursor.{passed, cover_answer, cover_next, CoveredBoth};

use crate::shape::number;
use cells::Piece;
use common::list::{END, WIDE};
use common::refusal::Refusal;

// What a query answers, and the index that the next one goes on from.
#[derive(Clone, Copy)]
pub struct Cover {
    pub found: Result<Option<usize>, Refusal>,
    pub index: usize,
}

// The first region from `index` on that ends after `place`, else the count.
fn pass<T: Piece>(list: &[T], count: usize, index: usize, place: usize) -> usize
    requires count_fits { count ≤ room wide (T.numbers list.now) }
    requires list_fits { length (T.numbers list.now) ≤ 18446744073709551615 }
    ensures { Gives (passed wide (T.numbers list.now) count index place) result }
{
    for i in index..count {
        if place < number(list, i * WIDE + END) {
            return i;
        }
    }
    index.max(count)
}

// If `place` is inside a region, that region's end, so that the caller can jump past it; and the index to go on from. Refusal 5 where
// the count is over the list's room: then the index is the given one.
pub fn covering_end<T: Piece>(list: &[T], count: usize, index: usize, place: usize) -> Cover
    ensures { Steps (cover_answer wide (T.numbers list.now) count index place) (cover_next wide (T.numbers list.now) count
        index place) (told_found result.found) result.index }
{
    if T::count(list) / WIDE < count {
        return Cover {
            found: Err(Refusal::ListMisshapen),
            index,
        };
    }
    let index = pass(list, count, index, place);
    if count <= index || place < number(list, index * WIDE) {
        return Cover {
            found: Ok(None),
            index,
        };
    }
    let end = number(list, index * WIDE + END);
    Cover {
        found: Ok(Some(end)),
        index,
    }
}

// A cursor that is lent and moved on by each query, the list lent beside it. A fresh one is at index 0; a copy is a lookahead that does
// not disturb its parent.
#[repr(C)]
#[derive(Clone, Copy)]
pub struct Cursor {
    pub index: usize,
}

// The number form, at the cursor's index, which moves on to the next.
pub fn covering<T: Piece>(
    cursor: &mut Cursor,
    list: &[T],
    count: usize,
    place: usize,
) -> Result<Option<usize>, Refusal>
    ensures { Steps (cover_answer wide (T.numbers list.now) count cursor.old.index place) (cover_next wide (T.numbers list.now)
        count cursor.old.index place) (told_found result) cursor.new.index }
{
    let cover = covering_end(list, count, cursor.index, place);
    cursor.index = cover.index;
    cover.found
}

// What two queries answer, and the index that the next one goes on from.
#[derive(Clone, Copy)]
pub struct CoverPair {
    pub first: Result<Option<usize>, Refusal>,
    pub second: Result<Option<usize>, Refusal>,
    pub index: usize,
}

// Two queries, one after the other, of a cursor made at `index`: it is lent to each, and the second finds it where the first left it.
pub fn covers_both<T: Piece>(
    list: &[T],
    count: usize,
    index: usize,
    first: usize,
    second: usize,
) -> CoverPair
    ensures { CoveredBoth (T.numbers list.now) count index first second result }
{
    let mut cursor = Cursor { index };
    let before = covering(&mut cursor, list, count, first);
    let after = covering(&mut cursor, list, count, second);
    CoverPair {
        first: before,
        second: after,
        index: cursor.index,
    }
}
