// States as byte runs: a cell of four bytes for each field, in the order of the fields, arrays cell by cell.
ghost use Rattle.std.specs.Prelude.{◌≡◌, true, ◌*◌, length};
ghost use Rattle.search.specs.Promise.{Gives};
ghost use Rattle.common.specs.Refusals.{given, told_span};
ghost use Rattle.block_marker.specs.Marker.{told as told_marker};
ghost use Rattle.block_numbered.specs.Numbered.{told as told_numbered};
ghost use Rattle.cells.specs.Bytes.{cells, readable};
ghost use Rattle.panel.specs.State.{Made, Moved, fence_limits, fence_cells, fence_from, item_limits, marker_cells, marker_from, numbered_cells, numbered_from};

use block_marker::{BlockMarkerIter, MarkerItem};
use block_numbered::{BlockNumberedIter, NumberedItem};
use cells::cell;
use cells::reply::{flag, put_numbers, room_of, values};
use common::refusal::Refusal;
use common::sets::index;
use common::span::Span;
use fence::FenceIter;
use search::byte_at;
use std::marker::PhantomData;

// Writes a fresh state; 2 where the run is not one cell for each number.
pub(crate) fn made(all: &[usize], state: &mut [u8]) -> u32
    ensures { Made all.now state.old state.new result }
{
    if state.len() != all.len() * 4 {
        return 2;
    }
    put_numbers(state, 0, all);
    0
}

// Writes the next state, and the values of an answer; 3 where the answer run is too short for them.
fn moved(all: &[usize], next: &[usize], state: &mut [u8], answer: &mut [u8]) -> u32
    requires { length next.now * 4 ≡ length state.old }
    ensures { Moved (given all.now) next.now
        (record { state = state.old; answer = answer.old })
        (record { state = state.new; answer = answer.new }) result }
{
    if all.len() < room_of(answer.len()) {
        put_numbers(state, 0, next);
        return values(all, answer);
    }
    3
}

// The same of a span, none, or a refusal, which leaves both runs as they are.
pub(crate) fn moved_span(
    found: Result<Option<Span>, Refusal>,
    next: &[usize],
    state: &mut [u8],
    answer: &mut [u8],
) -> u32
    requires { length next.now * 4 ≡ length state.old }
    ensures { Moved (told_span found) next.now
        (record { state = state.old; answer = answer.old })
        (record { state = state.new; answer = answer.new }) result }
{
    match found {
        Ok(Some(span)) => {
            let all = [span.start as usize, span.end as usize];
            moved(&all, next, state, answer)
        }
        Ok(None) => {
            let none = [0usize; 0];
            moved(&none, next, state, answer)
        }
        Err(r) => r.number(),
    }
}

pub(crate) fn moved_marker(
    found: Result<Option<MarkerItem>, Refusal>,
    next: &[usize],
    state: &mut [u8],
    answer: &mut [u8],
) -> u32
    requires { length next.now * 4 ≡ length state.old }
    ensures { Moved (told_marker found) next.now
        (record { state = state.old; answer = answer.old })
        (record { state = state.new; answer = answer.new }) result }
{
    match found {
        Ok(Some(item)) => {
            let all = [
                item.span.start as usize,
                item.span.end as usize,
                item.marker as usize,
            ];
            moved(&all, next, state, answer)
        }
        Ok(None) => {
            let none = [0usize; 0];
            moved(&none, next, state, answer)
        }
        Err(r) => r.number(),
    }
}

pub(crate) fn moved_numbered(
    found: Result<Option<NumberedItem>, Refusal>,
    next: &[usize],
    state: &mut [u8],
    answer: &mut [u8],
) -> u32
    requires { length next.now * 4 ≡ length state.old }
    ensures { Moved (told_numbered found) next.now
        (record { state = state.old; answer = answer.old })
        (record { state = state.new; answer = answer.new }) result }
{
    match found {
        Ok(Some(item)) => {
            let all = [
                item.span.start as usize,
                item.span.end as usize,
                item.delimiter as usize,
                item.number as usize,
            ];
            moved(&all, next, state, answer)
        }
        Ok(None) => {
            let none = [0usize; 0];
            moved(&none, next, state, answer)
        }
        Err(r) => r.number(),
    }
}

// The cells of a fence scanner's state.
pub(crate) fn fence_cells(g: FenceIter) -> [usize; 6]
    ensures { Gives (fence_cells g) result }
{
    [
        g.byte as usize,
        g.min as usize,
        g.eol as usize,
        g.sep as usize,
        g.tab as usize,
        g.pos,
    ]
}

// The state that cells within their limits make. A byte's cell holds nothing but its low byte.
pub(crate) fn read_fence(run: &[u8]) -> FenceIter
    requires { readable fence_limits run.now ≡ true }
    ensures { Gives (fence_from (cells run.now)) result }
{
    FenceIter {
        byte: byte_at(run, 0),
        min: byte_at(run, 4),
        eol: byte_at(run, 8),
        sep: byte_at(run, 12),
        tab: byte_at(run, 16),
        pos: cell(run, 5) as usize,
    }
}

// The cells of a marker scanner's state.
pub(crate) fn marker_cells(g: BlockMarkerIter) -> [usize; 9]
    ensures { Gives (marker_cells g) result }
{
    let needles = g.needles;
    [
        g.eol as usize,
        g.sep as usize,
        g.tab as usize,
        g.pos,
        index(needles[0]),
        index(needles[1]),
        index(needles[2]),
        g.nn,
        flag(g.streaming),
    ]
}

pub(crate) fn read_marker(run: &[u8]) -> BlockMarkerIter
    requires { readable item_limits run.now ≡ true }
    ensures { Gives (marker_from (cells run.now)) result }
{
    BlockMarkerIter {
        eol: byte_at(run, 0),
        sep: byte_at(run, 4),
        tab: byte_at(run, 8),
        pos: cell(run, 3) as usize,
        needles: [byte_at(run, 16), byte_at(run, 20), byte_at(run, 24)],
        nn: cell(run, 7) as usize,
        streaming: cell(run, 8) == 1,
        kind: PhantomData,
    }
}

// The cells of a numbered scanner's state, which has the same fields.
pub(crate) fn numbered_cells(g: BlockNumberedIter) -> [usize; 9]
    ensures { Gives (numbered_cells g) result }
{
    let needles = g.needles;
    [
        g.eol as usize,
        g.sep as usize,
        g.tab as usize,
        g.pos,
        index(needles[0]),
        index(needles[1]),
        index(needles[2]),
        g.nn,
        flag(g.streaming),
    ]
}

pub(crate) fn read_numbered(run: &[u8]) -> BlockNumberedIter
    requires { readable item_limits run.now ≡ true }
    ensures { Gives (numbered_from (cells run.now)) result }
{
    BlockNumberedIter {
        eol: byte_at(run, 0),
        sep: byte_at(run, 4),
        tab: byte_at(run, 8),
        pos: cell(run, 3) as usize,
        needles: [byte_at(run, 16), byte_at(run, 20), byte_at(run, 24)],
        nn: cell(run, 7) as usize,
        streaming: cell(run, 8) == 1,
        kind: PhantomData,
    }
}
