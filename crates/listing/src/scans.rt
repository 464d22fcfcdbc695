// The lines of the scanners: each is stepped from a fresh state until nothing comes.
ghost use Rattle.std.specs.Prelude.{◌≡◌, ◌≤◌, ℕ, length};
ghost use Rattle.common.specs.Kinds.{scanner_of};
ghost use Rattle.put.specs.Put.{Laid, LaidWithin};
ghost use Rattle.listing.specs.Lines.{line};
ghost use Rattle.listing.specs.Room.{Room};
ghost use Rattle.common.specs.Sets.{house_markers, house_delims};
ghost use Rattle.listing.specs.Listing.{item_lines_of, fence_lines_of, frame_lines, marker_lines, numbered_lines};
ghost use Rattle.listing.specs.Parts.{fence_lines, span_lines, item_lines, scan_lines};

use crate::put_line::{put_four, put_three, put_two};
use block_marker::{Marker, MarkerItem};
use block_numbered::{Numbered, NumberedItem};
use common::grammar::Grammar;
use common::scan::{ItemIter, ItemKind};
use cont::ContIter;
use fence::FenceIter;

// The fences of one byte.
fn put_fences_of(text: &[u8], byte: u8, out: &mut [u8], n: usize) -> usize
    requires text_len_bound { length text.now ≤ 8192 }
    requires room { Room n (fence_lines_of byte text.now) }
    ensures { Laid (fence_lines_of byte text.now) n out.old out.new result }
{
    let mut state = FenceIter::new(
        byte,
        Grammar::FENCE_MIN,
        Grammar::EOL,
        Grammar::SEP,
        Grammar::TAB,
    );
    let mut k = n;
    loop {
        let step = state.next(text);
        let Some(s) = step.found.unwrap_or(None) else {
            return k;
        };
        k = put_three(out, k, b'F', s.start, s.end, byte as u32);
        state = step.next;
    }
}

// Backtick fences, then tilde fences.
fn put_fences(text: &[u8], out: &mut [u8], n: usize) -> usize
    requires text_len_bound { length text.now ≤ 8192 }
    requires room { Room n (fence_lines text.now) }
    ensures { Laid (fence_lines text.now) n out.old out.new result }
{
    let k = put_fences_of(text, Grammar::BACKTICK, out, n);
    put_fences_of(text, Grammar::TILDE, out, k)
}

// The frames, as the scanner yields them.
fn put_frames(text: &[u8], out: &mut [u8], n: usize) -> usize
    requires text_len_bound { length text.now ≤ 8192 }
    requires room { Room n (frame_lines text.now) }
    ensures { Laid (frame_lines text.now) n out.old out.new result }
{
    let mut state = ContIter::new(
        Grammar::QUOTE,
        Grammar::EOL,
        Grammar::SEP,
        Grammar::TAB,
        Grammar::NEST,
    );
    let mut k = n;
    loop {
        let step = state.next(text);
        let Some(s) = step.found.unwrap_or(None) else {
            return k;
        };
        k = put_two(out, k, b'C', s.start, s.end);
        state = step.next;
    }
}

// A kind of items that are listed.
trait ListingKind: ItemKind {
    ghost letter: { ℕ };

    // The line of an item.
    fn put(item: Self::Item, out: &mut [u8], n: usize) -> usize
        requires { n ≤ 1000000 }
        ensures { LaidWithin 46 (line letter (Self.reading.values item)) n out.old out.new result };
}

impl ListingKind for Marker {
    ghost letter = { 77 };

    fn put(item: MarkerItem, out: &mut [u8], n: usize) -> usize {
        let span = item.span;
        put_three(out, n, b'M', span.start, span.end, item.marker as u32)
    }
}

impl ListingKind for Numbered {
    ghost letter = { 78 };

    fn put(item: NumberedItem, out: &mut [u8], n: usize) -> usize {
        let span = item.span;
        put_four(
            out,
            n,
            b'N',
            span.start,
            span.end,
            item.delimiter as u32,
            item.number,
        )
    }
}

// The items of a kind.
fn put_items_of<K: ListingKind>(text: &[u8], set: &[bool; 256], out: &mut [u8], n: usize) -> usize
    requires text_len_bound { length text.now ≤ 8192 }
    requires room { Room n (item_lines_of (scanner_of K K.reading) K.letter set.now text.now) }
    ensures { Laid (item_lines_of (scanner_of K K.reading) K.letter set.now text.now) n out.old out.new result }
{
    let mut state = ItemIter::<K>::new(Grammar::EOL, Grammar::SEP, Grammar::TAB, set);
    let mut k = n;
    loop {
        let step = state.next(text, set);
        let Some(i) = step.found.unwrap_or(None) else {
            return k;
        };
        k = K::put(i, out, k);
        state = step.next;
    }
}

// The marker items.
fn put_markers(text: &[u8], set: &[bool; 256], out: &mut [u8], n: usize) -> usize
    requires set_value { set.now ≡ house_markers }
    requires text_len_bound { length text.now ≤ 8192 }
    requires room { Room n (marker_lines text.now) }
    ensures { Laid (marker_lines text.now) n out.old out.new result }
{
    put_items_of::<Marker>(text, set, out, n)
}

// The numbered items.
fn put_numbered(text: &[u8], set: &[bool; 256], out: &mut [u8], n: usize) -> usize
    requires set_value { set.now ≡ house_delims }
    requires text_len_bound { length text.now ≤ 8192 }
    requires room { Room n (numbered_lines text.now) }
    ensures { Laid (numbered_lines text.now) n out.old out.new result }
{
    put_items_of::<Numbered>(text, set, out, n)
}

fn put_spans(text: &[u8], out: &mut [u8], n: usize) -> usize
    requires text_len_bound { length text.now ≤ 8192 }
    requires room { Room n (span_lines text.now) }
    ensures { Laid (span_lines text.now) n out.old out.new result }
{
    let k = put_fences(text, out, n);
    put_frames(text, out, k)
}

fn put_items(
    text: &[u8],
    markers: &[bool; 256],
    delims: &[bool; 256],
    out: &mut [u8],
    n: usize,
) -> usize
    requires markers_value { markers.now ≡ house_markers }
    requires delims_value { delims.now ≡ house_delims }
    requires text_len_bound { length text.now ≤ 8192 }
    requires room { Room n (item_lines text.now) }
    ensures { Laid (item_lines text.now) n out.old out.new result }
{
    let k = put_markers(text, markers, out, n);
    put_numbered(text, delims, out, k)
}

// The lines of all scanners.
pub(crate) fn put_scans(
    text: &[u8],
    markers: &[bool; 256],
    delims: &[bool; 256],
    out: &mut [u8],
    n: usize,
) -> usize
    requires markers_value { markers.now ≡ house_markers }
    requires delims_value { delims.now ≡ house_delims }
    requires text_len_bound { length text.now ≤ 8192 }
    requires room { Room n (scan_lines text.now) }
    ensures { Laid (scan_lines text.now) n out.old out.new result }
{
    let k = put_spans(text, out, n);
    put_items(text, markers, delims, out, k)
}
