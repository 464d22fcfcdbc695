// The work sheet: the marker and numbered items of a text that no region of a list hides, by rising content start. Both scanners and the
// list's cursor move forward together, so that the text and the list are passed once.
#![tactic(auto)]

pub mod item; // an item as a turn finds it, and written

ghost use Rattle.std.specs.Prelude.{◌≡◌, false, [], ◌∷◌, ℕ, ◌≤◌, length, Ok};
ghost use Rattle.search.specs.Promise.{Gives};
ghost use Rattle.common.specs.Entry.{rows, room, wide};
ghost use Rattle.common.specs.Lists.{Wrote};
ghost use Rattle.common.specs.Refusals.{given, told};
ghost use Rattle.cover.specs.Shape.{misshapen};
ghost use Rattle.sheet.specs.Sheet.{five, sheet_of, sheet_judged, Sheeted};
ghost use Rattle.sheet.specs.Parts.{is_at, asked, turned, Judges, begun, begun_within, left, Ready};

use cells::Piece;
use common::grammar::Grammar;
use common::refusal::Refusal;
use common::span::MAX_INPUT_LEN;
use cover::cursor::covering_end;
use cover::shape::is_misshapen;
use feed::item::{SheetItem, tested_place};
use feed::{Feed, start, take};
use item::{Seen, put_item};

// Whether an item is hidden, and the cursor's next index.
#[derive(Clone, Copy)]
pub struct Query {
    pub hidden: bool,
    pub index: usize,
}

// Both scanners, and the cursor's index in the list.
#[derive(Clone, Copy)]
pub struct Walk {
    pub feed: Feed,
    pub index: usize,
}

// What a turn tells, and what comes after the item.
#[derive(Clone, Copy)]
pub struct SheetStep {
    pub seen: Seen,
    pub rest: Walk,
}

// Whether a query found a region.
pub fn is_at(found: Result<Option<usize>, Refusal>) -> bool
    ensures { Gives (is_at found) result }
{
    matches!(found, Ok(Some(_)))
}

// Whether a region hides the item. The items come by rising places, so that the cursor's answer is plain coverage.
fn hides<T: Piece>(list: &[T], count: usize, index: usize, item: SheetItem) -> Query
    ensures { Gives (asked (T.numbers list.now) count index item) result }
{
    let cover = covering_end(list, count, index, tested_place(item));
    Query {
        hidden: is_at(cover.found),
        index: cover.index,
    }
}

// Takes the next item, and tells whether it is shown.
pub fn turn<T: Piece>(
    w: Walk,
    src: &[u8],
    markers: &[bool; 256],
    delims: &[bool; 256],
    list: &[T],
    count: usize,
) -> SheetStep
    ensures { Gives (turned markers.now delims.now (T.numbers list.now) count src.now w) result }
{
    let taken = take(w.feed, src, markers, delims);
    let head = taken.head;
    let feed = taken.rest;
    match head {
        None => SheetStep {
            seen: Seen::End,
            rest: Walk {
                feed,
                index: w.index,
            },
        },
        Some(i) => {
            let h = hides(list, count, w.index, i);
            let rest = Walk {
                feed,
                index: h.index,
            };
            if h.hidden {
                return SheetStep {
                    seen: Seen::Hidden,
                    rest,
                };
            }
            SheetStep {
                seen: Seen::Shown(i),
                rest,
            }
        }
    }
}

// How many items are shown.
fn count_items<T: Piece>(
    walk: Walk,
    src: &[u8],
    markers: &[bool; 256],
    delims: &[bool; 256],
    list: &[T],
    count: usize,
) -> usize
    requires { Ready markers.now delims.now (T.numbers list.now) count src.now walk }
    ensures { Gives (length (left markers.now delims.now src.now (rows wide count (T.numbers list.now))
        walk.feed)) result }
{
    let mut w = walk;
    let mut n: usize = 0;
    loop {
        let t = turn(w, src, markers, delims, list, count);
        let seen = t.seen;
        let rest = t.rest;
        match seen {
            Seen::End => {
                return n;
            }
            Seen::Hidden => {
                w = rest;
            }
            Seen::Shown(_) => {
                n += 1;
                w = rest;
            }
        }
    }
}

// A text and a list that a sheet takes: the text is within the limit, and the list's first `count` regions are in order within it.
#[derive(Drop)]
pub struct SheetInput<'a, T: Piece> {
    pub src: &'a [u8],
    pub list: &'a [T],
    pub count: usize,
    pub ghost short: { length src.now ≤ 4294967295 },
    pub ghost shaped: { misshapen (T.numbers list.now) count (length src.now) ≡ false },
}

// Judges a text and a list. Refusals: 1 the text is too long, 5 the list is misshapen.
pub fn judge<'a, T: Piece>(
    src: &'a [u8],
    list: &'a [T],
    count: usize,
) -> Result<SheetInput<'a, T>, Refusal>
    ensures { Judges (λ j. (j.list.now ≡ list.now) × (j.count ≡ count) × (j.src.now ≡ src.now)) (T.numbers list.now) count src.now result }
{
    if src.len() > MAX_INPUT_LEN {
        return Err(Refusal::TextTooLong);
    }
    if is_misshapen(list, count, src.len()) {
        return Err(Refusal::ListMisshapen);
    }
    Ok(SheetInput { src, list, count })
}

impl<T: Piece> SheetInput<'_, T> {
    // Both scanners and the cursor at the beginning of the sheet.
    fn begin(&self, g: Grammar, markers: &[bool; 256], delims: &[bool; 256]) -> Walk
        ensures { Gives (begun g markers.now delims.now (T.numbers self.now.list.now) self.now.count self.now.src.now) (Ok result) }
    {
        Walk {
            feed: start(g, self.src, markers, delims),
            index: 0,
        }
    }

    // How many items the sheet has, whatever the room.
    pub fn count_items(&self, g: Grammar, markers: &[bool; 256], delims: &[bool; 256]) -> usize
        ensures { Gives (length (sheet_of g markers.now delims.now (T.numbers self.now.list.now) self.now.count self.now.src.now)) result }
    {
        let walk = self.begin(g, markers, delims);
        count_items(walk, self.src, markers, delims, self.list, self.count)
    }

    // The beginning of a sheet that may have no more than `most` items; 3 where it has more. Where the room is surely enough, since an
    // item has two bytes before its content, so that each scanner finds at most half as many as there are bytes, no counting pass runs.
    pub fn begin_within(
        &self,
        g: Grammar,
        markers: &[bool; 256],
        delims: &[bool; 256],
        most: usize,
    ) -> Result<Walk, Refusal>
        ensures { Gives (begun_within g markers.now delims.now (T.numbers self.now.list.now) self.now.count self.now.src.now most) result }
    {
        let walk = self.begin(g, markers, delims);
        if self.src.len() <= most {
            return Ok(walk);
        }
        if most < count_items(walk, self.src, markers, delims, self.list, self.count) {
            return Err(Refusal::NoRoom);
        }
        Ok(walk)
    }
}

// How many items the sheet has, whatever the room. Refusals 1 and 5.
pub fn count_sheet<T: Piece>(
    src: &[u8],
    g: Grammar,
    markers: &[bool; 256],
    delims: &[bool; 256],
    list: &[T],
    count: usize,
) -> Result<usize, Refusal>
    ensures { Gives (sheet_judged (T.numbers list.now) count src.now (given (length (sheet_of g markers.now delims.now (T.numbers list.now) count src.now) ∷ []))) (told result) }
{
    let judged = judge(src, list, count)?;
    Ok(judged.count_items(g, markers, delims))
}

// The beginning of a sheet that may have no more than `most` items: the same refusals, and 3 where it has more.
pub fn begin_within<T: Piece>(
    src: &[u8],
    g: Grammar,
    markers: &[bool; 256],
    delims: &[bool; 256],
    list: &[T],
    count: usize,
    most: usize,
) -> Result<Walk, Refusal>
    ensures { Gives (begun_within g markers.now delims.now (T.numbers list.now) count src.now most) result }
{
    let judged = judge(src, list, count)?;
    judged.begin_within(g, markers, delims, most)
}

// Writes the items that are shown over the front of `out`, which has room for them, and says how many there are.
fn write_items<T: Piece>(
    walk: Walk,
    src: &[u8],
    markers: &[bool; 256],
    delims: &[bool; 256],
    list: &[T],
    count: usize,
    out: &mut [u32],
) -> usize
    requires ready { Ready markers.now delims.now (T.numbers list.now) count src.now walk }
    requires feed_len_bound { length (left markers.now delims.now src.now (rows wide count (T.numbers list.now)) walk.feed) ≤ room 5 out.old }
    ensures { Wrote five (left markers.now delims.now src.now (rows wide count (T.numbers list.now)) walk.feed)
        out.old out.new result }
{
    let mut w = walk;
    let mut n: usize = 0;
    loop {
        let t = turn(w, src, markers, delims, list, count);
        let seen = t.seen;
        let rest = t.rest;
        match seen {
            Seen::End => {
                return n;
            }
            Seen::Hidden => {
                w = rest;
            }
            Seen::Shown(i) => {
                n = put_item(out, n, i);
                w = rest;
            }
        }
    }
}

// Writes the work sheet of a text: the marker and numbered items, by the bytes of two sets, whose marker or delimiter is in none of the
// list's first `count` regions, by rising content start, the marker item first where two are equal. Item k goes to places 5k to 5k + 4 of `out`
// (start, end, kind, accepted byte, number), the answer is how many there are, and nothing beyond them is changed. A refusal (1 the text
// is too long, 5 the list is misshapen, 3 too little room) changes nothing.
pub fn sheet<T: Piece>(
    src: &[u8],
    g: Grammar,
    markers: &[bool; 256],
    delims: &[bool; 256],
    list: &[T],
    count: usize,
    out: &mut [u32],
) -> Result<usize, Refusal>
    ensures { Sheeted g markers.now delims.now (T.numbers list.now) count src.now out.old
        out.new (told result) }
{
    let walk = begin_within(src, g, markers, delims, list, count, out.len() / 5)?;
    Ok(write_items(walk, src, markers, delims, list, count, out))
}
