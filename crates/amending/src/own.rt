// The replacement's own regions, written in bytes.
ghost use Rattle.region.specs.Region.{up};
ghost use Rattle.region.specs.Regions.{regions};
ghost use Rattle.rules.specs.Tables.{gram_in};
ghost use Rattle.cells.specs.Bytes.{row_bytes};
ghost use Rattle.amend.specs.Amended.{list_regions};
ghost use Rattle.amend.specs.Parts.{Owns, PutRows};
ghost use Rattle.amending.specs.Amending.{listed_bytes};

use crate::rows::put_moved;
use region::next_region;
use rules::tables::Tables;

// Writes the regions of a text, moved up by `by`, to row `into` of `out` and on. Answers the row after them.
pub(crate) fn write_own(
    text: &[u8],
    by: usize,
    tables: &Tables,
    out: &mut [u8],
    into: usize,
) -> usize
    requires { Owns row_bytes (regions (gram_in tables.now) text.now) text.now by out.old into }
    ensures { PutRows listed_bytes row_bytes
        (up by (list_regions (gram_in tables.now) text.now)) into
        out.old out.new result }
{
    let mut dead = [0usize; 256];
    let mut at = into;
    let mut q = 0;
    loop {
        match next_region(text, q, tables, &mut dead) {
            None => {
                return at;
            }
            Some((r, next)) => {
                at = put_moved(out, at, r.start, r.end, by);
                q = next;
            }
        }
    }
}
