// The numbered scanner, after block_numbered.rs: a state by value, one item a step.
//
// An item's line has optional separators and tabs, one to nine ASCII digits, an accepted delimiter, and one separator or tab; the
// span is the rest of the line. Ten digits reject.
//
// With up to three accepted delimiters the scan is streaming: one search for them, with a walk back over the digits, which adds up
// their number, and a look back over separators and tabs to see that the item leads its line. Searching for the delimiter spares a
// search for ten digits; a stray delimiter in prose fails at once, on the byte before it. With more delimiters the lines are read one
// by one, their digits forward.
#![tactic(auto)]

ghost use Rattle.std.specs.Prelude.{◌<◌, ◌-◌, ◌^◌, min, drop};
ghost use Rattle.search.specs.Promise.{Gives};
ghost use Rattle.search.specs.Search.{back, digit};
ghost use Rattle.block_numbered.specs.Numbered.{few, trail_at, read_digits, digits_at, reading, make};
ghost use Rattle.block_numbered.specs.NumberedLaws.{Lies};
ghost use Rattle.block_numbered.specs.NumberedRun.{lawful, fits};

use common::items::{blank_at, leads_later};
use common::scan::{ItemIter, ItemKind, ItemLead, Step};
use common::sets::accepts;
use common::span::{Bounds, Span};
use common::turn::Turn;
use find::{find_any_of, find_byte};
use search::{blank_end, byte_at, is_digit, next_line};

// The kind of the numbered items.
#[derive(Clone, Copy)]
pub struct Numbered;

// The scanner's state, by the Rust's name.
pub type BlockNumberedIter = ItemIter<Numbered>;

// A number, its delimiter byte, and the span of its content.
#[derive(Clone, Copy)]
pub struct NumberedItem {
    pub number: u32,
    pub delimiter: u8,
    pub span: Span,
}

// What a step answers, and the state after it.
pub type NumberedStep = Step<NumberedItem, BlockNumberedIter>;

// What leads an item's line.
#[derive(Clone, Copy)]
pub struct Head {
    pub number: u32,
    pub delimiter: u8,
}

// Digits that were read: their number, and where they end.
#[derive(Clone, Copy)]
pub struct DigitRun {
    pub number: u32,
    pub end: usize,
}

// Digits that were walked back over: how many, and their number.
#[derive(Clone, Copy)]
struct Trail {
    count: usize,
    number: u32,
}

// Nine powers of ten: at place i what a 1 counts that has i digits behind it.
const POWERS: [u32; 9] = [
    1, 10, 100, 1000, 10000, 100000, 1000000, // a million
    10000000, 100000000,
];

// A digit's value.
fn digit_value(x: u8) -> u32
    ensures { Gives (x - 48) result }
{
    if x < 48 {
        return 0;
    }
    (x - 48) as u32
}

// The power of ten at a place of the table.
fn power(i: usize) -> u32
    requires { i < 9 }
    ensures { Gives (10 ^ i) result }
{
    POWERS[i]
}

// The digits just before `p`, nine at the most. Each is read once: what it counts is added as it is passed.
fn nine_before(src: &[u8], p: usize) -> Trail
    ensures { Gives (trail_at src.now p (min (back digit src.now p) 9)) result }
{
    if p > src.len() {
        return Trail {
            count: 0,
            number: 0,
        };
    }
    let mut k = p;
    let mut number: u32 = 0;
    while k > 0 {
        let count = p - k;
        if count >= 9 {
            return Trail { count, number };
        }
        let x = src[k - 1];
        if is_digit(x) {
            number = number + digit_value(x) * power(count);
            k -= 1;
        } else {
            return Trail { count, number };
        }
    }
    Trail { count: p, number }
}

// The digits just before `p`, if they are one to nine; else none.
fn digits_before(src: &[u8], p: usize) -> Trail
    ensures { Gives (trail_at src.now p (few (back digit src.now p))) result }
{
    let walked = nine_before(src, p);
    let n = walked.count;
    if n < 9 {
        return walked;
    }
    if p <= n {
        return walked;
    }
    if is_digit(byte_at(src, p - n - 1)) {
        return Trail {
            count: 0, // ten digits or more
            number: 0,
        };
    }
    walked
}

// The digits of a line from `from` on, nine at the most.
pub fn read_digits(line: &[u8], from: usize) -> DigitRun
    ensures { Gives (digits_at from (read_digits (drop from line.now))) result }
{
    let mut i = from;
    let mut number: u32 = 0;
    while i < line.len() {
        if i - from >= 9 {
            return DigitRun { number, end: i };
        }
        let x = byte_at(line, i);
        if is_digit(x) {
            number = number * 10 + digit_value(x);
            i += 1;
        } else {
            return DigitRun { number, end: i };
        }
    }
    DigitRun { number, end: i }
}

impl ItemKind for Numbered {
    type Value = Head;

    type Item = NumberedItem;

    ghost reading = { reading };

    ghost make = { make };

    ghost lies = { Lies };

    fn item(head: Head, span: Span) -> NumberedItem {
        NumberedItem {
            number: head.number,
            delimiter: head.delimiter,
            span,
        }
    }

    // A failed hit is rejected in place, and the scan goes on from the next byte: delimiters in prose are few on a line, so that one look
    // back at each is cheaper than a search for every line's end.
    fn streamed(
        g: &BlockNumberedIter,
        src: &[u8],
        q: usize,
        lost: &mut usize,
    ) -> Turn<ItemLead<Head>> {
        let len = src.len();
        let needles = g.needles;
        let p = find_any_of(&needles, g.nn, src, q);
        if p >= len {
            return Turn::Stop(q);
        }
        let nxt = p + 1;
        let digits = digits_before(src, p);
        let n = digits.count;
        if n == 0 {
            return Turn::Go(nxt);
        }
        let k = p - n;
        if leads_later(src, k, g.eol, g.sep, g.tab, lost) && blank_at(src, nxt, g.sep, g.tab) {
            let start = p + 2;
            let end = find_byte(src, start, g.eol);
            let value = Head {
                number: digits.number,
                delimiter: byte_at(src, p),
            };
            let content = Bounds { start, end };
            return Turn::Found(ItemLead { value, content }, next_line(len, end));
        }
        Turn::Go(nxt) // in place
    }

    fn lined(
        g: &BlockNumberedIter,
        src: &[u8],
        q: usize,
        matches: &[bool; 256],
    ) -> Turn<ItemLead<Head>> {
        if q >= src.len() {
            return Turn::Stop(q);
        }
        let end = find_byte(src, q, g.eol);
        let n = next_line(src.len(), end);
        let line = &src[..end];
        let p = blank_end(line, q, g.sep, g.tab);
        let digits = read_digits(line, p);
        let j = digits.end;
        if j <= p {
            return Turn::Go(n);
        }
        if j >= end {
            return Turn::Go(n);
        }
        let delimiter = byte_at(line, j);
        if accepts(matches, delimiter) && blank_at(line, j + 1, g.sep, g.tab) {
            let value = Head {
                number: digits.number,
                delimiter,
            };
            let content = Bounds { start: j + 2, end };
            return Turn::Found(ItemLead { value, content }, n);
        }
        Turn::Go(n)
    }

    ghost lawful = { lawful };

    ghost fits = { fits };
}
