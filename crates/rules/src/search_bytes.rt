// The bytes a builder searches for: an array of eleven and a count, handed over and handed back whole, without repeats.
ghost use Rattle.std.specs.Prelude.{not, ◌&&◌, ltb, take};
ghost use Rattle.search.specs.Promise.{Gives};
ghost use Rattle.search.specs.Search.{one_of};
ghost use Rattle.common.specs.Sets.{as_flag};
ghost use Rattle.rules.specs.Columns.{no_bytes, with_byte, gathered, search_bytes, sets_with, how_many, left_of, alphabet_of};

use crate::columns::RuleColumns;
use cells::Piece;
use common::grammar::Grammar;
use common::sets::{accepts, byte_set};
use find::is_one_of;
use search::lesser;

#[derive(Clone, Copy)]
pub struct SearchBytes {
    pub bytes: [u8; Grammar::MAX_NEEDLES],
    pub count: usize,
}

impl SearchBytes {
    pub fn new() -> Self
        ensures { Gives no_bytes result }
    {
        SearchBytes {
            bytes: [0u8; Grammar::MAX_NEEDLES],
            count: 0,
        }
    }

    // One byte more, unless there are eleven or it is there: a byte that is dropped is only never searched for.
    pub fn with(self, b: u8) -> Self
        ensures { Gives (with_byte self b) result }
    {
        let n = self.count;
        if Grammar::MAX_NEEDLES <= n {
            return self;
        }
        let bytes = self.bytes;
        if is_one_of(&bytes, n, b) {
            return self;
        }
        let mut more = self;
        more.bytes[n] = b;
        more.count = n + 1;
        more
    }

    // The bytes of a column more, in its order.
    pub fn gather(self, column: &[u8]) -> Self
        ensures { Gives (gathered self column.now) result }
    {
        let mut all = self;
        for &b in column {
            all = all.with(b);
        }
        all
    }
}

// Fence bytes, symmetric bytes, asymmetric openers, in that order, without repeats, the first eleven kept.
pub fn search_bytes(fences: &[u8], symmetric: &[u8], openers: &[u8]) -> SearchBytes
    ensures { Gives (search_bytes fences.now symmetric.now openers.now) result }
{
    SearchBytes::new()
        .gather(fences)
        .gather(symmetric)
        .gather(openers)
}

// How many of three sets have a byte.
fn sets_with(a: &[bool; 256], b: &[bool; 256], c: &[bool; 256], x: u8) -> usize
    ensures { Gives (sets_with a.now b.now c.now x) result }
{
    accepts(a, x) as usize + accepts(b, x) as usize + accepts(c, x) as usize
}

// 1 where a byte of one of three sets is left out, since it isn't one of those kept, else 0: however many have it, it counts once.
fn left_by(kept: SearchBytes, a: &[bool; 256], b: &[bool; 256], c: &[bool; 256], x: u8) -> usize
    ensures { Gives (as_flag (ltb 0 (sets_with a.now b.now c.now x)
        && not (one_of (take kept.count kept.bytes) x))) result }
{
    let bytes = kept.bytes;
    if is_one_of(&bytes, kept.count, x) {
        return 0;
    }
    lesser(sets_with(a, b, c, x), 1)
}

// How many of the 256 bytes are left out.
fn count_left(kept: SearchBytes, a: &[bool; 256], b: &[bool; 256], c: &[bool; 256]) -> usize
    ensures { Gives (how_many (λ x. ltb 0 (sets_with a.now b.now c.now x)
        && not (one_of (take kept.count kept.bytes) x)) 256) result }
{
    let mut n: usize = 0;
    for x in 0..256usize {
        n += left_by(kept, a, b, c, x as u8);
    }
    n
}

// How many bytes open by these columns and aren't kept, each counted once.
pub fn left_out(kept: SearchBytes, fences: &[u8], symmetric: &[u8], openers: &[u8]) -> usize
    ensures { Gives (left_of (take kept.count kept.bytes) fences.now symmetric.now openers.now) result }
{
    let fenced = byte_set(fences);
    let paired = byte_set(symmetric);
    let opening = byte_set(openers);
    count_left(kept, &fenced, &paired, &opening)
}

// The bytes that a scan for regions goes by: the grammar's, and those searched for.
#[derive(Clone, Copy)]
pub struct Alphabet {
    pub grammar: Grammar,
    pub searched: SearchBytes,
}

impl Alphabet {
    // By rules given as columns.
    pub fn of<T: Piece>(grammar: Grammar, rules: RuleColumns<T>) -> Self
        ensures { Gives (alphabet_of grammar rules.entry.fences.now rules.entry.inline.symmetric.now
            rules.entry.inline.openers.now) result }
    {
        let inline = rules.inline;
        Alphabet {
            grammar,
            searched: search_bytes(rules.fences, inline.symmetric, inline.openers),
        }
    }
}
