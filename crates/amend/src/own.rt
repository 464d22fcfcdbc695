// The replacement's own regions: how many there are, and they written.
ghost use Rattle.std.specs.Prelude.{◌||◌, leb};
ghost use Rattle.search.specs.Promise.{Gives};
ghost use Rattle.common.specs.Entry.{wide};
ghost use Rattle.region.specs.Region.{row, up};
ghost use Rattle.region.specs.Regions.{regions};
ghost use Rattle.rules.specs.Tables.{gram_in};
ghost use Rattle.amend.specs.Parts.{surveyed, Owns, PutRows};
ghost use Rattle.amend.specs.Amended.{list_regions};

use crate::rows::put_moved;
use region::next_region;
use rules::tables::Tables;

// How many regions a text has, and whether one reaches its end.
#[derive(Clone, Copy)]
pub struct Counted {
    pub count: usize,
    pub reaching: bool,
}

// Whether one did already, or one that ends at `end` does in a text of `len` bytes.
fn reached(already: bool, end: usize, len: usize) -> bool
    ensures { Gives (already || leb len end) result }
{
    already || len <= end
}

// The regions of a text, counted.
pub fn survey(text: &[u8], tables: &Tables) -> Counted
    ensures { Gives (surveyed (gram_in tables.now) text.now) result }
{
    let mut dead = [0usize; 256];
    let mut found: usize = 0;
    let mut reaching = false;
    let mut q = 0;
    loop {
        match next_region(text, q, tables, &mut dead) {
            None => {
                return Counted {
                    count: found,
                    reaching,
                };
            }
            Some((r, next)) => {
                found += 1;
                reaching = reached(reaching, r.end, text.len());
                q = next;
            }
        }
    }
}

// Writes the regions of a text, moved up by `by`, to row `into` of `out` and on. Answers the row after them.
pub(crate) fn write_own(
    text: &[u8],
    by: usize,
    tables: &Tables,
    out: &mut [u32],
    into: usize,
) -> usize
    requires { Owns wide (regions (gram_in tables.now) text.now) text.now by out.old into }
    ensures { PutRows row wide (up by (list_regions (gram_in tables.now) text.now)) into
        out.old out.new result }
{
    let mut dead = [0usize; 256];
    let mut at = into;
    let mut q = 0;
    loop {
        match next_region(text, q, tables, &mut dead) {
            None => {
                return at;
            }
            Some((r, next)) => {
                at = put_moved(out, at, r.start, r.end, by);
                q = next;
            }
        }
    }
}
