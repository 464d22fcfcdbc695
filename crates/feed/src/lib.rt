// Both scanners as one run of items: each stands one item ahead, so that the lesser of the two is known and no item is sought twice. A
// scanner's refusal counts as its end.
#![tactic(auto)]

pub mod item; // the items

ghost use Rattle.search.specs.Promise.{Gives};
ghost use Rattle.feed.specs.Feeds.{after, fresh_feed, picked, taken};

use block_marker::{BlockMarkerIter, Marker};
use block_numbered::{BlockNumberedIter, Numbered};
use common::grammar::Grammar;
use common::scan::ItemIter;
use item::{SheetItem, SheetKind};

// A scanner, one item ahead.
#[derive(Clone, Copy)]
pub struct ItemsAhead<K> {
    pub head: Option<SheetItem>,
    pub rest: ItemIter<K>,
}

// Both.
#[derive(Clone, Copy)]
pub struct Feed {
    pub marks: ItemsAhead<Marker>,
    pub numbers: ItemsAhead<Numbered>,
}

// The next item of both, and what comes after it.
#[derive(Clone, Copy)]
pub struct Taken {
    pub head: Option<SheetItem>,
    pub rest: Feed,
}

// Which scanner's item is next.
#[derive(Clone, Copy)]
enum Pick {
    Mark(SheetItem),
    Number(SheetItem),
}

// A scanner's next item; its refusal counts as its end.
fn next_item<K: SheetKind>(g: ItemIter<K>, src: &[u8], set: &[bool; 256]) -> ItemsAhead<K>
    ensures { Gives (after K K.reading K.shown set.now src.now g) result }
{
    let step = g.next(src, set);
    let rest = step.next;
    match step.found.unwrap_or(None) {
        Some(i) => ItemsAhead {
            head: Some(K::shown(i)),
            rest,
        },
        None => ItemsAhead { head: None, rest },
    }
}

// Both scanners from the text's start, by fresh states.
pub fn start(g: Grammar, src: &[u8], markers: &[bool; 256], delims: &[bool; 256]) -> Feed
    ensures { Gives (fresh_feed g markers.now delims.now src.now) result }
{
    let marks = next_item(
        BlockMarkerIter::new(g.eol, g.sep, g.tab, markers),
        src,
        markers,
    );
    let numbers = next_item(
        BlockNumberedIter::new(g.eol, g.sep, g.tab, delims),
        src,
        delims,
    );
    Feed { marks, numbers }
}

// The item that starts first, the marker where both start at one place; none where neither is left.
fn first_of(mark: Option<SheetItem>, number: Option<SheetItem>) -> Option<Pick>
    ensures { Gives (picked mark number) result }
{
    match (mark, number) {
        (Some(x), Some(y)) => {
            if y.start < x.start {
                return Some(Pick::Number(y));
            }
            Some(Pick::Mark(x))
        }
        (Some(x), None) => Some(Pick::Mark(x)),
        (None, Some(y)) => Some(Pick::Number(y)),
        (None, None) => None,
    }
}

// Takes the next item of both, and moves its scanner on.
pub fn take(f: Feed, src: &[u8], markers: &[bool; 256], delims: &[bool; 256]) -> Taken
    ensures { Gives (taken markers.now delims.now src.now f) result }
{
    let marks = f.marks;
    let numbers = f.numbers;
    let mark = marks.head;
    let number = numbers.head;
    let Some(pick) = first_of(mark, number) else {
        return Taken {
            head: None,
            rest: f,
        };
    };
    match pick {
        Pick::Mark(x) => {
            let more = next_item(marks.rest, src, markers);
            Taken {
                head: Some(x),
                rest: Feed {
                    marks: more,
                    numbers,
                },
            }
        }
        Pick::Number(y) => {
            let more = next_item(numbers.rest, src, delims);
            Taken {
                head: Some(y),
                rest: Feed {
                    marks,
                    numbers: more,
                },
            }
        }
    }
}
