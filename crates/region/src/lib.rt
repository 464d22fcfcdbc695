// Opaque regions, one after another, after the loop of context.rs: every turn makes one search for all the bytes that may open a region;
// a fence at a line start goes first, and a hit that opens no fence is judged by the inline rule of its byte. The scan goes on after a
// region, so that overlapping candidates are resolved leftmost first.
#![tactic(auto)]

mod pairs; // where an inline pair closes

ghost use Rattle.std.specs.Prelude.{◌≤◌, ◌<◌, length};
ghost use Rattle.search.specs.Promise.{Gives};
ghost use Rattle.common.specs.Rules.{entry};
ghost use Rattle.rules.specs.Tables.{gram_in};
ghost use Rattle.region.specs.Regions.{regions};
ghost use Rattle.region.specs.Sight.{turned};
ghost use Rattle.region.specs.Views.{view_hit, view_turn};
ghost use Rattle.region.specs.Memory.{kept_pair, kept_turn, KeptNext};
ghost use Rattle.region.specs.Parts.{fence_gram_in, fenced_by, sym_pair, asym_pair, inline_by};

use common::grammar::Grammar;
use find::find_any_of;
use lines::fence_tests::{Hit, fence_close_scan, opens_at};
use pairs::{asym_close, is_escaped, sym_close};
use rules::rows::{closer_of, count_of, fence_index, index_of, kind_of};
use rules::tables::Tables;
use search::{byte_at, next_line, run_end};

// Which kind of rule made a region.
#[derive(Clone, Copy)]
pub enum Cause {
    Fence,
    Symmetric,
    Asymmetric,
}

// A region from `start` up to, not including, `end`; the index of its rule among those of its kind; and, for a fence, whether a line
// closed it.
#[derive(Clone, Copy)]
pub struct Region {
    pub start: usize,
    pub end: usize,
    pub cause: Cause,
    pub index: usize,
    pub closed: bool,
}

// One turn of the scan: on from a later place; nothing left; a region, and where the scan goes on; or an opener whose close was sought
// in vain: its byte, where the scan goes on, and up to where the search went.
#[derive(Clone, Copy)]
enum Turn {
    Go(usize),
    Stop(usize),
    Made(Region, usize),
    Lost(u8, usize, usize),
}

// The region of a fence whose run of `count` begins at `p`, in a line that ends at `e`. It ends before the closing line's line end.
fn fence_region(src: &[u8], p: usize, count: usize, e: usize, g: Grammar, index: usize) -> Turn
    ensures { Gives (turned (fenced_by g src.now p count e index)) (view_turn result) }
{
    let len = src.len();
    match fence_close_scan(src, next_line(len, e), byte_at(src, p), count, g) {
        Some((_, end)) => Turn::Made(
            Region {
                start: p,
                end, // before the line end
                cause: Cause::Fence,
                index,
                closed: true,
            },
            next_line(len, end),
        ),
        None => Turn::Made(
            Region {
                start: p,
                end: len,
                cause: Cause::Fence,
                index,
                closed: false,
            },
            len,
        ),
    }
}

// Up to where the close of a byte's rule was sought in vain.
fn sought_to(dead: &[usize; 256], b: u8) -> usize
    ensures { Gives (entry 0 dead.now b) result }
{
    dead[b as usize]
}

// A pair whose opening run of `byte` stands from `p` up to `r`, by what the search for its close said.
fn pair_by(hit: Hit, p: usize, r: usize, byte: u8, cause: Cause, index: usize) -> Turn
    ensures { Gives (kept_pair cause index p byte r (view_hit hit)) (view_turn result) }
{
    match hit {
        Hit::At(end) => Turn::Made(
            Region {
                start: p,
                end,
                cause,
                index,
                closed: true,
            },
            end,
        ),
        Hit::End(u) => Turn::Lost(byte, r, u), // past the whole run
    }
}

// A symmetric pair that may open at `p` with a run of `byte`. There is no search where one was in vain up to the run's end.
fn sym_pair(src: &[u8], p: usize, byte: u8, tables: &Tables, dead: &[usize; 256]) -> Turn
    requires { p ≤ length src.now }
    ensures { Gives (sym_pair (fence_gram_in tables.now) tables.now.rows src.now dead.now p byte)
        (view_turn result) }
{
    let rows = &tables.rows;
    let r = run_end(src, p, byte);
    let count = count_of(rows, byte);
    if r - p != count {
        return Turn::Go(r);
    }
    if r <= sought_to(dead, byte) { // in vain before
        return Turn::Go(r);
    }
    let hit = sym_close(src, r, byte, count, tables.alphabet.grammar, &tables.fences);
    pair_by(hit, p, r, byte, Cause::Symmetric, index_of(rows, byte))
}

// An asymmetric pair that may open at `p` with a run of `byte`.
fn asym_pair(src: &[u8], p: usize, byte: u8, tables: &Tables, dead: &[usize; 256]) -> Turn
    requires { p ≤ length src.now }
    ensures { Gives (asym_pair (fence_gram_in tables.now) tables.now.rows src.now dead.now p byte)
        (view_turn result) }
{
    let rows = &tables.rows;
    let close = closer_of(rows, byte);
    let r = run_end(src, p, byte);
    if r - p != count_of(rows, byte) {
        return Turn::Go(r);
    }
    if r <= sought_to(dead, byte) {
        return Turn::Go(r);
    }
    let hit = asym_close(src, r, close, tables.alphabet.grammar, &tables.fences);
    pair_by(hit, p, r, byte, Cause::Asymmetric, index_of(rows, byte))
}

// A byte at `p` that opens no fence, judged by its inline rule; an escaped one is passed.
fn inline_at(src: &[u8], p: usize, tables: &Tables, dead: &[usize; 256]) -> Turn
    requires { p < length src.now }
    ensures { Gives (inline_by (fence_gram_in tables.now) tables.now.rows src.now dead.now p)
        (view_turn result) }
{
    let g = tables.alphabet.grammar;
    let b = byte_at(src, p);
    let k = kind_of(&tables.rows, b);
    if k == 0 {
        return Turn::Go(p + 1);
    }
    if is_escaped(src, p, g.escape) {
        return Turn::Go(p + 1);
    }
    if k == 1 {
        return sym_pair(src, p, b, tables, dead);
    }
    asym_pair(src, p, b, tables, dead)
}

// One turn at `q`: the next byte searched for, and what it opens.
fn region_turn(src: &[u8], q: usize, tables: &Tables, dead: &[usize; 256]) -> Turn
    requires { q ≤ length src.now }
    ensures { Gives (kept_turn (gram_in tables.now) src.now dead.now q)
        (view_turn result) }
{
    let g = tables.alphabet.grammar;
    let searched = &tables.alphabet.searched;
    let p = find_any_of(&searched.bytes, searched.count, src, q);
    if p >= src.len() {
        return Turn::Stop(q);
    }
    match opens_at(src, p, g, &tables.fences) {
        Some((run, e)) => {
            fence_region(
                src,
                p,
                run,
                e,
                g,
                fence_index(&tables.rows, byte_at(src, p)),
            )
        }
        None => inline_at(src, p, tables, dead),
    }
}

// The next region at or after `from`, with the rule that made it; from a place past the text there is none. `dead` remembers for each
// byte up to where the close of its rule was sought in vain: zeros before the first region, and then as the last step left it, so that
// no paragraph is searched again for every opener in it.
pub fn next_region(
    src: &[u8],
    from: usize,
    tables: &Tables,
    dead: &mut [usize; 256],
) -> Option<(Region, usize)>
    ensures { KeptNext (gram_in tables.now) src.now dead.old from result
        dead.new }
{
    let len = src.len();
    if from > len {
        return None;
    }
    let mut q = from;
    loop {
        match region_turn(src, q, tables, dead) {
            Turn::Go(next) => {
                q = next;
            }
            Turn::Lost(b, next, u) => {
                dead[b as usize] = u; // the paragraph's end
                q = next;
            }
            Turn::Stop(_) => {
                return None;
            }
            Turn::Made(r, next) => {
                return Some((r, next));
            }
        }
    }
}

// How many regions a text has.
pub fn count_regions(src: &[u8], tables: &Tables) -> usize
    ensures { Gives (length (regions (gram_in tables.now) src.now)) result }
{
    let mut dead = [0usize; 256];
    let mut found: usize = 0;
    let mut q: usize = 0;
    loop {
        match next_region(src, q, tables, &mut dead) {
            Some((_, next)) => {
                found += 1;
                q = next;
            }
            None => {
                return found;
            }
        }
    }
}
