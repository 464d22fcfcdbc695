// What a line says of fences, after context.rs: whether it opens one, whether it closes one, and the search for the close. The
// rules come as one table over the byte: 0 where no rule has it, else one more than the minimum of the first that has.
ghost use Rattle.search.specs.Promise.{Gives};
ghost use Rattle.common.specs.Rules.{entry};
ghost use Rattle.lines.specs.Fences.{fence_table, has_in, least_in, run_count, opening_of, opening, closes_to};
ghost use Rattle.lines.specs.Reader.{shuts, reader_in, opening_at, close_scan};
ghost use Rattle.lines.specs.Paragraph.{next_in};

use common::grammar::Grammar;
use common::sets::index;
use find::{find_byte, find_either};
use search::{blank_within, byte_at, is_at, line_start, next_line, run_end, run_within};

// A byte sought in a paragraph, or where the paragraph ends. Either is a place to go on from, so neither is a failure or nothing.
#[derive(Clone, Copy, PartialEq, Eq, Debug)]
pub enum Hit {
    At(usize),
    End(usize),
}

// The table of fence rules given as columns. Filled from the last rule to the first, so that the first rule with a byte decides.
pub fn fence_table(bytes: &[u8], mins: &[u8]) -> [u16; 256]
    ensures { Gives (fence_table bytes.now mins.now) result }
{
    let mut fences = [0u16; 256];
    for i in (0..bytes.len()).rev() {
        fences[index(bytes[i])] = byte_at(mins, i) as u16 + 1;
    }
    fences
}

// The table's entry for a byte.
fn fence_of(fences: &[u16; 256], b: u8) -> usize
    ensures { Gives (entry 0 fences.now b) result }
{
    fences[b as usize] as usize
}

// The length of a run from `p` up to `j`, counted to 255.
pub fn run_count(p: usize, j: usize) -> usize
    ensures { Gives (run_count p j) result }
{
    j.saturating_sub(p).min(255)
}

// Does the line that begins at `pos` open a fence of `byte`? It has a run of at least `least` and at least 1, and no further
// fence byte.
fn opens_with(src: &[u8], pos: usize, eol: u8, byte: u8, least: usize) -> Option<(usize, usize)>
    ensures { Gives (opening_of eol byte least src.now pos) result }
{
    // A line end begins no run: its line ends before it.
    if byte == eol {
        return None;
    }
    let i = run_end(src, pos, byte);
    if i <= pos {
        return None;
    }
    let c = run_count(pos, i);
    if c < least {
        return None;
    }
    // One search tells both where the line ends and whether another fence byte comes first.
    let e = find_either(src, i, byte, eol);
    if is_at(src, e, byte) {
        return None;
    }
    Some((c, e))
}

// Does the line that begins at `pos` open a fence, by the first rule with the byte that stands there?
pub fn fence_opens(src: &[u8], pos: usize, eol: u8, fences: &[u16; 256]) -> Option<(usize, usize)>
    ensures { Gives (opening eol (has_in fences.now) (least_in fences.now) src.now pos) result }
{
    let b = byte_at(src, pos);
    let least = fence_of(fences, b).checked_sub(1)?;
    opens_with(src, pos, eol, b, least)
}

// Does a fence's run begin at `p`? It begins its line, and the line opens a fence.
pub fn opens_at(src: &[u8], p: usize, g: Grammar, fences: &[u16; 256]) -> Option<(usize, usize)>
    ensures { Gives (opening_at (reader_in g fences.now) g.eol src.now p) result }
{
    if line_start(src, p, g.eol) {
        fence_opens(src, p, g.eol, fences)
    } else {
        None
    }
}

// Would the line that begins at `ls` end a paragraph by opening a fence?
pub fn fence_opens_line(src: &[u8], ls: usize, g: Grammar, fences: &[u16; 256]) -> bool
    ensures { Gives ((reader_in g fences.now).enters src.now ls) result }
{
    fence_opens(src, ls, g.eol, fences).is_some()
}

// Does the line from `pos` up to `end` close a fence of `byte` whose opening run was `count`? Its run is as long or
// longer, and its rest is separators or tabs.
pub fn fence_closes(src: &[u8], pos: usize, end: usize, byte: u8, count: usize, g: Grammar) -> bool
    ensures { Gives (closes_to g byte count src.now pos end) result }
{
    let i = run_within(src, pos, end, byte);
    run_count(pos, i) >= count && blank_within(src, i, end, g.sep, g.tab)
}

// The first line at or after `from` that closes a fence of `byte` and `count`. Lines that don't begin with the fence byte are never
// walked.
pub fn fence_close_scan(
    src: &[u8],
    from: usize,
    byte: u8,
    count: usize,
    g: Grammar,
) -> Option<(usize, usize)>
    ensures { Gives (close_scan g byte count src.now from) result }
{
    let mut search = from;
    loop {
        let q = find_byte(src, search, byte);
        if q >= src.len() {
            return None;
        }
        if !line_start(src, q, g.eol) {
            search = q + 1;
            continue;
        }
        let e = find_byte(src, q, g.eol);
        if fence_closes(src, q, e, byte, count, g) {
            return Some((q, e));
        }
        search = next_line(src.len(), e);
    }
}

// The next `needle` at or after `from` in the paragraph, else where the paragraph ends: a line end is crossed, unless the text ends
// there, or an empty line or a fence follows.
pub fn next_in(src: &[u8], from: usize, needle: u8, g: Grammar, fences: &[u16; 256]) -> Hit
    ensures { Gives (next_in g.eol ((reader_in g fences.now).enters src.now) src.now needle from) result }
{
    let mut j = from;
    loop {
        let q = find_either(src, j, needle, g.eol);
        if q >= src.len() {
            return Hit::End(q);
        }
        if src[q] != g.eol {
            return Hit::At(q);
        }
        let n = q + 1;
        if n >= src.len() || src[n] == g.eol || fence_opens_line(src, n, g, fences) {
            return Hit::End(q);
        }
        j = n;
    }
}
