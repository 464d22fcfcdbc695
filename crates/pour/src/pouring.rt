// Regions into a list in bytes, a row of `ROW` bytes a region: counted first where the room may be too little, so that nothing is written before
// a refusal is excluded.
ghost use Rattle.std.specs.Prelude.{[], ◌∷◌, ◌+◌, ◌*◌, ◌/◌, ◌≤◌, leb, length};
ghost use Rattle.search.specs.Promise.{Gives};
ghost use Rattle.common.specs.Entry.{flatten};
ghost use Rattle.region.specs.Regions.{regions};
ghost use Rattle.common.specs.Lists.{RowPut, Wrote};
ghost use Rattle.rules.specs.Tables.{gram_in};
ghost use Rattle.cells.specs.Bytes.{four, row_bytes};
ghost use Rattle.cells.specs.Poured.{PouredAs};
ghost use Rattle.pour.specs.Building.{region_bytes};

use cells::reply::put_numbers;
use cells::{ROW, reply};
use region::{count_regions, next_region};
use rules::tables::Tables;

// How many regions a list of `len` bytes has room for.
fn region_room(len: usize) -> usize
    ensures { Gives (len / row_bytes) result }
{
    len / ROW
}

// Writes region `n`, from `start` up to `end`, to its bytes, and answers the next region's number.
fn put_region(out: &mut [u8], n: usize, start: usize, end: usize) -> usize
    requires { n * row_bytes + row_bytes ≤ length out.old }
    ensures { RowPut (flatten four (start ∷ end ∷ [])) n out.old out.new result }
{
    let all = [start, end];
    put_numbers(out, n * ROW, &all);
    n + 1
}

// Writes the regions of a text over the front of a list that has room for them, and says how many there are.
fn write_regions(text: &[u8], tables: &Tables, out: &mut [u8]) -> usize
    requires { length (regions (gram_in tables.now) text.now) ≤ length out.old / row_bytes }
    ensures { Wrote region_bytes (regions (gram_in tables.now) text.now)
        out.old out.new result }
{
    let mut dead = [0usize; 256];
    let mut found: usize = 0;
    let mut q: usize = 0;
    loop {
        match next_region(text, q, tables, &mut dead) {
            Some((r, next)) => {
                found = put_region(out, found, r.start, r.end);
                q = next;
            }
            None => {
                return found;
            }
        }
    }
}

// Whether `len` bytes have room for the regions of a text. Where it is surely enough, since there are at most half as many regions as
// bytes and one more, no counting pass runs.
fn fits(len: usize, text: &[u8], tables: &Tables) -> bool
    ensures { Gives (leb (length (regions (gram_in tables.now) text.now))
        (len / row_bytes)) result }
{
    let most = region_room(len);
    if text.len() / 2 < most {
        return true;
    }
    count_regions(text, tables) <= most
}

// Writes the regions of a text, and replies how many there are; or refuses where the list or the answer run is too short. Both are
// refused with 3, so that the answer run may be looked at first.
pub(crate) fn pour(text: &[u8], tables: &Tables, out: &mut [u8], answer: &mut [u8]) -> u32
    ensures { PouredAs region_bytes row_bytes (regions (gram_in tables.now) text.now)
        (record { list = out.old; answer = answer.old })
        (record { list = out.new; answer = answer.new }) result }
{
    if 1 < reply::room_of(answer.len()) {
        if fits(out.len(), text, tables) {
            let found = write_regions(text, tables, out);
            let all = [found];
            return reply::values(&all, answer);
        }
        return 3;
    }
    3
}
