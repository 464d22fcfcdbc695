// The second pass over a file that the first one found whole: its regions, into a list that has room for them.
ghost use Rattle.std.specs.Prelude.{◌≡◌, true, [], ◌∷◌, ◌+◌, ◌*◌, ◌≤◌, length};
ghost use Rattle.common.specs.Entry.{flatten, room, wide};
ghost use Rattle.common.specs.Lists.{RowPut, Wrote};
ghost use Rattle.common.specs.Refusals.{span_values};
ghost use Rattle.cells.specs.Bytes.{four, row_bytes};
ghost use Rattle.json_file.specs.Form.{outset, follow, is_whole};
ghost use Rattle.json_file.specs.Records.{records_in};
ghost use Rattle.json_file.specs.ByteRecords.{span_bytes};

use crate::objects::{NextObject, next_object};
use crate::phase::Phase;
use cells::ROW;
use cells::reply::put_numbers;
use common::list::{END, WIDE};

// Writes region `n` to its row, and answers the next region's number.
fn put_row(out: &mut [u32], n: usize, start: u32, end: u32) -> usize
    requires { n * wide + wide ≤ length out.old }
    ensures { RowPut (start ∷ end ∷ []) n out.old out.new result }
{
    let k = n * WIDE;
    out[k] = start;
    out[k + END] = end;
    n + 1
}

// The same of a list in bytes.
fn pour_row(out: &mut [u8], n: usize, start: u32, end: u32) -> usize
    requires { n * row_bytes + row_bytes ≤ length out.old }
    ensures { RowPut (flatten four (start ∷ end ∷ [])) n out.old out.new result }
{
    let all = [start as usize, end as usize];
    put_numbers(out, n * ROW, &all);
    n + 1
}

// Writes a file's regions over the front of a list, and says how many there are.
pub(crate) fn write_rows(file: &[u8], out: &mut [u32]) -> usize
    requires file_value { is_whole (follow outset file.now) ≡ true }
    requires file_len_bound { length (records_in file.now) ≤ room wide out.old }
    ensures { Wrote span_values (records_in file.now) out.old out.new result }
{
    let mut g = Phase::Begin;
    let mut n = 0;
    let mut i = 0;
    loop {
        match next_object(file, i, g) {
            NextObject::Region(a, b, next) => {
                n = put_row(out, n, a, b);
                g = Phase::Closed;
                i = next;
            }
            NextObject::Bad(_) => {
                return n;
            }
            NextObject::Over(_) => {
                return n;
            }
        }
    }
}

// The same of a list in bytes.
pub(crate) fn pour_rows(file: &[u8], out: &mut [u8]) -> usize
    requires file_value { is_whole (follow outset file.now) ≡ true }
    requires file_len_bound { length (records_in file.now) ≤ room row_bytes out.old }
    ensures { Wrote span_bytes (records_in file.now) out.old out.new result }
{
    let mut g = Phase::Begin;
    let mut n = 0;
    let mut i = 0;
    loop {
        match next_object(file, i, g) {
            NextObject::Region(a, b, next) => {
                n = pour_row(out, n, a, b);
                g = Phase::Closed;
                i = next;
            }
            NextObject::Bad(_) => {
                return n;
            }
            NextObject::Over(_) => {
                return n;
            }
        }
    }
}
