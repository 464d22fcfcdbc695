// Lists of opaque regions, after context.rs: building one from a text.
#![tactic(auto)]

pub mod records; // fence rules as records

ghost use Rattle.std.specs.Prelude.{[], ◌∷◌, ◌≤◌, length};
ghost use Rattle.common.specs.Refusals.{told};
ghost use Rattle.common.specs.Entry.{room, wide};
ghost use Rattle.rules.specs.Columns.{columns_of};
ghost use Rattle.rules.specs.Tables.{gram_in};
ghost use Rattle.region.specs.Region.{row_of};
ghost use Rattle.region.specs.Regions.{regions};
ghost use Rattle.common.specs.Lists.{RowPut, Wrote, Filled};
ghost use Rattle.region.specs.Room.{RowFits};
ghost use Rattle.context.specs.Build.{Built};

use common::grammar::Grammar;
use common::list::{END, WIDE};
use common::refusal::Refusal;
use common::span::MAX_INPUT_LEN;
use lines::fence_tests::fence_table;
use region::{count_regions, next_region};
use rules::columns::RuleColumns;
use rules::rows::{lay_rules, no_rows};
use rules::search_bytes::Alphabet;
use rules::tables::Tables;

// Writes region `n`, from `start` up to `end`, to its row, and answers the next region's number.
fn put_region(out: &mut [u32], n: usize, start: usize, end: usize) -> usize
    requires { RowFits n start end out.old }
    ensures { RowPut (start ∷ end ∷ []) n out.old out.new result }
{
    let k = n * WIDE;
    out[k] = start as u32;
    out[k + END] = end as u32;
    n + 1
}

// Writes the regions of a text over the front of `out`, which has room for them, and says how many there are.
fn write_regions(src: &[u8], tables: &Tables, out: &mut [u32]) -> usize
    requires src_len_bound { length src.now ≤ 4294967295 }
    requires src_len_bound_2 { length (regions (gram_in tables.now) src.now) ≤ room wide out.old }
    ensures { Wrote row_of (regions (gram_in tables.now) src.now) out.old
        out.new result }
{
    let mut dead = [0usize; 256];
    let mut found: usize = 0;
    let mut q: usize = 0;
    loop {
        match next_region(src, q, tables, &mut dead) {
            Some((r, next)) => {
                found = put_region(out, found, r.start, r.end);
                q = next;
            }
            None => {
                return found;
            }
        }
    }
}

// Writes the regions of a text within the limit, or refuses where there is too little room. Where the room is surely enough, since
// there are at most half as many regions as bytes and one more, no counting pass runs.
fn fill(src: &[u8], tables: &Tables, out: &mut [u32]) -> Result<usize, Refusal>
    requires { length src.now ≤ 4294967295 }
    ensures { Filled row_of wide (regions (gram_in tables.now) src.now) out.old
        out.new (told result) }
{
    let most = out.len() / WIDE;
    if src.len() / 2 < most {
        return Ok(write_regions(src, tables, out));
    }
    let found = count_regions(src, tables);
    if most < found {
        return Err(Refusal::NoRoom);
    }
    Ok(write_regions(src, tables, out))
}

// Builds the list of the opaque regions of a text by rules given as columns: fence bytes and minimums; symmetric bytes and counts;
// asymmetric openers, closers and counts. Region k goes to places 2k and 2k + 1 of `out`, the answer is how many there are, and
// nothing beyond them is changed. A refusal (1 the text is too long, 6 columns differ, 3 too little room) changes nothing.
pub fn build(
    src: &[u8],
    g: Grammar,
    rules: RuleColumns<u32>,
    out: &mut [u32],
) -> Result<usize, Refusal>
    ensures { Built g (columns_of (λ l. l) rules.entry) src.now out.old out.new (told result) }
{
    if src.len() > MAX_INPUT_LEN {
        return Err(Refusal::TextTooLong);
    }
    if rules.differ() {
        return Err(Refusal::ColumnsDiffer);
    }
    // (`Tables::of` would copy them.)
    let mut tables = Tables {
        alphabet: Alphabet::of(g, rules),
        fences: fence_table(rules.fences, rules.mins),
        rows: no_rows(),
    };
    lay_rules(&mut tables.rows, rules);
    fill(src, &tables, out)
}
