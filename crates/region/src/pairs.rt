// Pairs within a paragraph, after context.rs: the search for the close of a symmetric or an asymmetric pair. Both cross single line
// ends, and give up at an empty line, at a line that opens a fence, or at the end of input; then they say where the paragraph ended.
ghost use Rattle.std.specs.Prelude.{◌≤◌, length};
ghost use Rattle.search.specs.Promise.{Gives};
ghost use Rattle.common.specs.Turn.{first_turn};
ghost use Rattle.region.specs.Regions.{odd_before, sym_turn, asym_turn};
ghost use Rattle.region.specs.Parts.{fence_gram};
ghost use Rattle.region.specs.Views.{view_pair, view_hit};

use common::grammar::Grammar;
use lines::fence_tests::{Hit, next_in};
use search::{run_before, run_end};

// One turn of a close search: on from a later place; the end of the close; or the end of the paragraph.
#[derive(Clone, Copy)]
pub(crate) enum PairTurn {
    Go(usize),
    Close(usize),
    End(usize),
}

// Whether the escapes just before `p` are odd in number, so that what stands there is escaped.
pub(crate) fn is_escaped(src: &[u8], p: usize, escape: u8) -> bool
    ensures { Gives (odd_before escape src.now p) result }
{
    run_before(src, p, escape) % 2 == 1
}

// The next `byte` in the paragraph: passed if it is escaped, else its run closes if it is exactly the count.
fn sym_turn(
    src: &[u8],
    j: usize,
    byte: u8,
    count: usize,
    g: Grammar,
    fences: &[u16; 256],
) -> PairTurn
    requires { j ≤ length src.now }
    ensures { Gives (sym_turn (fence_gram g fences.now) src.now byte count j) (view_pair result) }
{
    match next_in(src, j, byte, g, fences) {
        Hit::End(u) => PairTurn::End(u),
        Hit::At(q) => {
            if is_escaped(src, q, g.escape) {
                return PairTurn::Go(q + 1);
            }
            let t = run_end(src, q, byte);
            if t - q == count {
                return PairTurn::Close(t);
            }
            PairTurn::Go(t)
        }
    }
}

// Where a symmetric pair closes whose opening run ends at `from`.
pub(crate) fn sym_close(
    src: &[u8],
    from: usize,
    byte: u8,
    count: usize,
    g: Grammar,
    fences: &[u16; 256],
) -> Hit
    requires { from ≤ length src.now }
    ensures { Gives (first_turn (sym_turn (fence_gram g fences.now) src.now byte count) (length src.now)
        from) (view_hit result) }
{
    let mut j = from;
    loop {
        match sym_turn(src, j, byte, count, g, fences) {
            PairTurn::Go(n) => {
                j = n;
            }
            PairTurn::Close(t) => {
                return Hit::At(t);
            }
            PairTurn::End(u) => {
                return Hit::End(u);
            }
        }
    }
}

// The next closing byte in the paragraph: passed if it is escaped.
fn asym_turn(src: &[u8], j: usize, close: u8, g: Grammar, fences: &[u16; 256]) -> PairTurn
    requires { j ≤ length src.now }
    ensures { Gives (asym_turn (fence_gram g fences.now) src.now close j) (view_pair result) }
{
    match next_in(src, j, close, g, fences) {
        Hit::End(u) => PairTurn::End(u), // not beyond the paragraph
        Hit::At(q) => {
            if is_escaped(src, q, g.escape) {
                return PairTurn::Go(q + 1);
            }
            PairTurn::Close(q + 1)
        }
    }
}

// Where an asymmetric pair closes whose opening run ends at `from`.
pub(crate) fn asym_close(src: &[u8], from: usize, close: u8, g: Grammar, fences: &[u16; 256]) -> Hit
    requires { from ≤ length src.now }
    ensures { Gives (first_turn (asym_turn (fence_gram g fences.now) src.now close) (length src.now) from)
        (view_hit result) }
{
    let mut j = from;
    loop {
        match asym_turn(src, j, close, g, fences) {
            PairTurn::Go(n) => {
                j = n;
            }
            PairTurn::Close(t) => {
                return Hit::At(t);
            }
            PairTurn::End(u) => {
                return Hit::End(u);
            }
        }
    }
}
