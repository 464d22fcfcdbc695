// The marker scanner, after block_marker.rs: a state by value, one item a step.
//
// An item's line has optional separators and tabs, one accepted byte, and one separator or tab; the span is the rest of the line.
//
// With up to three accepted bytes the scan is streaming: one search for them, with a look back over separators and tabs to see that
// the byte leads its line, so that lines without one are never visited. With more the lines are read one by one.
#![tactic(auto)]

ghost use Rattle.std.specs.Prelude.{◌<◌, length, take};
ghost use Rattle.search.specs.Promise.{Gives};
ghost use Rattle.search.specs.Search.{one_of, Sought};
ghost use Rattle.common.specs.Items.{leads};
ghost use Rattle.common.specs.Kinds.{view};
ghost use Rattle.common.specs.Later.{Unled, Looked};
ghost use Rattle.block_marker.specs.Marker.{reading, make, HitSays};
ghost use Rattle.block_marker.specs.MarkerLaws.{Lies};
ghost use Rattle.block_marker.specs.MarkerRun.{lawful, fits};

use common::items::{blank_at, leads_later, leads_line};
use common::scan::{ItemIter, ItemKind, ItemLead, Step};
use common::sets::accepts;
use common::span::{Bounds, Span};
use common::turn::Turn;
use find::{find_any_of, find_byte, is_one_of};
use search::{blank_end, byte_at, is_blank, next_line};

// The kind of the marker items.
#[derive(Clone, Copy)]
pub struct Marker;

// The scanner's state, by the Rust's name.
pub type BlockMarkerIter = ItemIter<Marker>;

// A marker byte, and the span of its content.
#[derive(Clone, Copy)]
pub struct MarkerItem {
    pub marker: u8,
    pub span: Span,
}

// What a step answers, and the state after it.
pub type MarkerStep = Step<MarkerItem, BlockMarkerIter>;

// The first needle at or after `q`. The place itself comes first: of lines that are items one after another the mark stands just where
// the search for it begins.
fn find_mark(g: &BlockMarkerIter, src: &[u8], q: usize) -> usize
    ensures { Sought (one_of (take g.now.nn g.now.needles)) src.now q result }
{
    let needles = g.needles;
    if q < src.len() {
        if is_one_of(&needles, g.nn, src[q]) {
            return q;
        }
    }
    find_any_of(&needles, g.nn, src, q)
}

// What a hit at `p` says; `led` tells whether it leads its line. A failed hit rules its whole line out, since a later hit on that line
// would have this one before it: on to the next line, instead of rejecting the line's hits one by one.
#[inline(always)]
fn hit(g: &BlockMarkerIter, src: &[u8], p: usize, led: bool) -> Turn<ItemLead<u8>>
    requires p_in_bounds { p < length src.now }
    ensures { Gives (leads g.now.eol g.now.sep g.now.tab src.now p) led → HitSays g.now.eol g.now.sep g.now.tab src.now p (view make result) }
{
    if led && blank_at(src, p + 1, g.sep, g.tab) {
        let start = p + 2;
        let end = find_byte(src, start, g.eol);
        let lead = ItemLead {
            value: byte_at(src, p),
            content: Bounds { start, end },
        };
        return Turn::Found(lead, next_line(src.len(), end));
    }
    Turn::Go(next_line(src.len(), find_byte(src, p, g.eol)))
}

// Whether `p` leads its line. No place need be kept where a walk back ends at the line end before, so that no line is walked twice; where
// the line end is itself a separator or a tab it goes on, and a place that leads no line is kept.
fn leads_here(g: &BlockMarkerIter, src: &[u8], p: usize, lost: &mut usize) -> bool
    ensures { Unled g.now.eol g.now.sep g.now.tab src.now lost.old → Looked g.now.eol g.now.sep g.now.tab src.now
        (leads g.now.eol g.now.sep g.now.tab src.now p) result lost.new }
{
    if is_blank(g.eol, g.sep, g.tab) {
        return leads_later(src, p, g.eol, g.sep, g.tab, lost);
    }
    leads_line(src, p, g.eol, g.sep, g.tab)
}

impl ItemKind for Marker {
    type Value = u8;

    type Item = MarkerItem;

    ghost reading = { reading };

    ghost make = { make };

    ghost lies = { Lies };

    #[inline(always)]
    fn item(marker: u8, span: Span) -> MarkerItem {
        MarkerItem { marker, span }
    }

    #[inline(always)]
    fn streamed(g: &BlockMarkerIter, src: &[u8], q: usize, lost: &mut usize) -> Turn<ItemLead<u8>> {
        let p = find_mark(g, src, q);
        if p >= src.len() {
            return Turn::Stop(q);
        }
        let led = leads_here(g, src, p, lost);
        hit(g, src, p, led)
    }

    #[inline(always)]
    fn lined(
        g: &BlockMarkerIter,
        src: &[u8],
        q: usize,
        matches: &[bool; 256],
    ) -> Turn<ItemLead<u8>> {
        if q >= src.len() {
            return Turn::Stop(q);
        }
        let end = find_byte(src, q, g.eol);
        let n = next_line(src.len(), end);
        let line = &src[..end];
        let p = blank_end(line, q, g.sep, g.tab);
        if p >= end {
            return Turn::Go(n);
        }
        let value = byte_at(line, p);
        if accepts(matches, value) && blank_at(line, p + 1, g.sep, g.tab) {
            let content = Bounds { start: p + 2, end };
            return Turn::Found(ItemLead { value, content }, n);
        }
        Turn::Go(n)
    }

    ghost lawful = { lawful };

    ghost fits = { fits };
}
