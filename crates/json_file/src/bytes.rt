// Records and lists in bytes, as a host in C lends them.
ghost use Rattle.std.specs.Prelude.{◌≡◌, true, length};
ghost use Rattle.cells.specs.Bytes.{row_bytes};
ghost use Rattle.cells.specs.Poured.{PouredAs};
ghost use Rattle.json_file.specs.Form.{outset, follow, is_whole};
ghost use Rattle.json_file.specs.Records.{records_in};
ghost use Rattle.json_file.specs.ByteRecords.{span_bytes, WroteBytes, ReadBytes};

use crate::Unread;
use crate::check::check;
use crate::layout::{layout_fits, put_list};
use crate::rows::pour_rows;
use cells::{ROW, reply};
use common::refusal::Refusal;
use common::span::MAX_INPUT_LEN;
use cover::shape::is_misshapen;

// How many numbers 32 bits tell apart.
const WORD: usize = 4294967296;

// A refusal, or 0; and behind 10 its place, else 0. By value, so that a refusal touches no lent run and a place past 32 bits fits.
#[repr(C)]
#[derive(Clone, Copy)]
pub struct PlacedReply {
    pub refusal: u32,
    pub place: usize,
}

// Writes the first `count` regions of a list in our one layout, and replies how many bytes it has, in two numbers, the low one first. Refusals 5, 3.
pub fn write_bytes(list: &[u8], count: usize, out: &mut [u8], answer: &mut [u8]) -> u32
    ensures { WroteBytes list.now count (record { list = out.old; answer = answer.old })
        (record { list = out.new; answer = answer.new }) result }
{
    if is_misshapen(list, count, MAX_INPUT_LEN) {
        return 5;
    }
    if 2 < reply::room_of(answer.len()) {
        if layout_fits(list, count, out.len()) {
            let size = put_list(list, count, out);
            let all = [size % WORD, size / WORD];
            return reply::values(&all, answer);
        }
        return 3;
    }
    3
}

// A whole file of `n` regions in order, poured into a list. Both runs are refused with 3, so that the answer run may be looked at first.
fn pour_file(file: &[u8], n: usize, out: &mut [u8], answer: &mut [u8]) -> u32
    requires file_value { is_whole (follow outset file.now) ≡ true }
    requires n_value { n ≡ length (records_in file.now) }
    ensures { PouredAs span_bytes row_bytes (records_in file.now) (record { list = out.old; answer = answer.old })
        (record { list = out.new; answer = answer.new }) result }
{
    if 1 < reply::room_of(answer.len()) {
        if n <= out.len() / ROW {
            let found = pour_rows(file, out);
            let all = [found];
            return reply::values(&all, answer);
        }
        return 3;
    }
    3
}

// Reads a file's regions into a list, and replies how many there are. Refusals 10, 5, 3.
pub fn read_bytes(file: &[u8], out: &mut [u8], answer: &mut [u8]) -> PlacedReply
    ensures { ReadBytes file.now (record { list = out.old; answer = answer.old })
        (record { list = out.new; answer = answer.new }) result.refusal result.place }
{
    match check(file) {
        Ok(n) => PlacedReply {
            refusal: pour_file(file, n, out, answer),
            place: 0,
        },
        Err(Unread::Broken(place)) => PlacedReply {
            refusal: Refusal::NotRecords.number(),
            place,
        },
        Err(Unread::Refused(r)) => PlacedReply {
            refusal: r.number(),
            place: 0,
        },
    }
}
