// Scanners of items that lead a line: a state by value, one item a step. What an item is, and how a turn of either scan finds one, is its
// kind's.
ghost use Rattle.std.specs.Prelude.{◌≡◌, ◌≤◌, ℕ, List, length};
ghost use Rattle.search.specs.Promise.{Gives, Steps};
ghost use Rattle.common.specs.Kinds.{ItemReading, scanner_of, view, told_by};
ghost use Rattle.common.specs.Later.{Unled, Looked};
ghost use Rattle.common.specs.Scanning.{by_needles, by_set, fresh, at, turn, answer, state};
ghost use Rattle.common.specs.ScanningLaws.{Lawful};
ghost use Rattle.common.specs.declared.span.Span.{Span};
ghost use Rattle.common.specs.declared.scan.ItemIter.{ItemIter};

use crate::refusal::Refusal;
use crate::sets::probe_matcher;
use crate::span::{Bounds, MAX_INPUT_LEN, Span};
use crate::turn::Turn;
use std::marker::PhantomData;

// The fields of the Rust's iterators; the text and the set of accepted bytes are lent beside it.
#[derive(Clone, Copy)]
pub struct ItemIter<K> {
    pub eol: u8,
    pub sep: u8,
    pub tab: u8,
    pub pos: usize,
    pub needles: [u8; 3],
    pub nn: usize,
    pub streaming: bool,
    pub kind: PhantomData<K>,
}

// What leads an item's line, and where its content lies.
#[derive(Clone, Copy)]
pub struct ItemLead<V> {
    pub value: V,
    pub content: Bounds,
}

// What a step answers, and the state after it.
#[derive(Clone, Copy)]
pub struct Step<T, S> {
    pub found: Result<Option<T>, Refusal>,
    pub next: S,
}

// A kind of items.
pub trait ItemKind: Copy {
    type Value: Copy;

    type Item: Copy;

    ghost reading: { ItemReading Self.Item };

    ghost make: { Self.Value → Span → Self.Item };

    ghost lies: { ℕ → ℕ → Self.Item → Type 0 };

    // The item of what leads its line and of its content's span.
    fn item(value: Self::Value, span: Span) -> Self::Item
        ensures { result ≡ make value span };

    // One turn of the streaming scan. `lost` holds a place that does not lead its line, 0 for none.
    fn streamed(
        g: &ItemIter<Self>,
        src: &[u8],
        q: usize,
        lost: &mut usize,
    ) -> Turn<ItemLead<Self::Value>>
        ensures { Unled g.now.eol g.now.sep g.now.tab src.now lost.old → Looked g.now.eol g.now.sep g.now.tab src.now
            (reading.streams (by_needles ((scanner_of Self reading).fields g.now)) src.now q) (view make result) lost.new };

    // One turn of the line scan: the line that begins at `q`.
    fn lined(
        g: &ItemIter<Self>,
        src: &[u8],
        q: usize,
        matches: &[bool; 256],
    ) -> Turn<ItemLead<Self::Value>>
        ensures { Gives (reading.lines (by_set ((scanner_of Self reading).fields g.now) matches.now) src.now q)
            (view make result) };

    ghost lawful: { Lawful (scanner_of Self reading) lies };

    ghost fits: { (q n : ℕ) (v : Self.Value) (s : Span) → lies q n (make v s) → (s.start ≤ n) × (s.end ≤ n) };
}

impl<K: ItemKind> ItemIter<K> {
    pub fn new(eol: u8, sep: u8, tab: u8, matches: &[bool; 256]) -> Self
        ensures { Gives (fresh (scanner_of K K.reading) eol sep tab matches.now) result }
    {
        let probe = probe_matcher(matches);
        let needles = probe.needles;
        ItemIter {
            eol,
            sep,
            tab,
            pos: 0,
            needles,
            nn: probe.nn,
            streaming: probe.streaming,
            kind: PhantomData,
        }
    }

    #[inline(always)]
    fn at(self, pos: usize) -> Self
        ensures { Gives (at (scanner_of K K.reading) self pos) result }
    {
        ItemIter { pos, ..self }
    }

    // One turn of the scan that the state's flag says.
    #[inline(always)]
    fn turn(
        &self,
        src: &[u8],
        q: usize,
        matches: &[bool; 256],
        lost: &mut usize,
    ) -> Turn<ItemLead<K::Value>>
        requires { Unled self.now.eol self.now.sep self.now.tab src.now lost.old }
        ensures { Looked self.now.eol self.now.sep self.now.tab src.now
            (turn (scanner_of K K.reading) self.now matches.now src.now q) (view K.make result) lost.new }
    {
        if self.streaming {
            return K::streamed(self, src, q, lost);
        }
        K::lined(self, src, q, matches)
    }

    // A step from a place within a text that is not too long: the first item from there on, or none, and where the scan goes on or stays.
    #[inline(always)]
    fn served(self, src: &[u8], matches: &[bool; 256]) -> Step<K::Item, Self>
        requires place { self.pos ≤ length src.now }
        requires short { length src.now ≤ 4294967295 }
        ensures { Steps (answer (scanner_of K K.reading) self matches.now src.now)
            (state (scanner_of K K.reading) self matches.now src.now) (told_by K.reading.values result.found) result.next }
    {
        let mut lost = 0;
        let mut q = self.pos;
        loop {
            match self.turn(src, q, matches, &mut lost) {
                Turn::Go(n) => {
                    q = n;
                }
                Turn::Stop(place) => {
                    return Step {
                        found: Ok(None),
                        next: self.at(place),
                    };
                }
                Turn::Found(lead, after) => {
                    let span = Span {
                        start: lead.content.start as u32,
                        end: lead.content.end as u32,
                    };
                    return Step {
                        found: Ok(Some(K::item(lead.value, span))),
                        next: self.at(after),
                    };
                }
            }
        }
    }

    pub fn next(self, src: &[u8], matches: &[bool; 256]) -> Step<K::Item, Self>
        ensures { Steps (answer (scanner_of K K.reading) self matches.now src.now)
            (state (scanner_of K K.reading) self matches.now src.now) (told_by K.reading.values result.found) result.next }
    {
        let pos = self.pos;
        let len = src.len();
        if len > MAX_INPUT_LEN {
            return Step {
                found: Err(Refusal::TextTooLong),
                next: self,
            };
        }
        if pos > len {
            return Step {
                found: Err(Refusal::PlaceOutside),
                next: self,
            };
        }
        self.served(src, matches)
    }
}
