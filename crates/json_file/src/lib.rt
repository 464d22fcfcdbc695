// Records for other tools: a list of regions as a file of JSON (RFC 8259), written and read.
#![tactic(auto)]

pub mod bytes; // lists in bytes
mod check; // whether a file is of the form, and where not
mod layout; // our one layout
mod objects; // the objects of a file
mod phase; // what may come next in a file
mod rows; // a file's regions into a list

ghost use Rattle.common.specs.Entry.{wide};
ghost use Rattle.common.specs.Refusals.{told, span_values};
ghost use Rattle.json_file.specs.Records.{WroteRecords, ReadRecords, told_read};

use check::check;
use common::list::WIDE;
use common::refusal::Refusal;
use common::span::MAX_INPUT_LEN;
use cover::shape::is_misshapen;
use layout::{layout_fits, put_list};
use rows::write_rows;

// Why a file isn't read: the place of the first byte that can't continue a file of this form, the length for one that breaks off:
// refusal 10; or another refusal.
#[derive(Clone, Copy)]
pub enum Unread {
    Broken(usize),
    Refused(Refusal),
}

// Writes the first `count` regions of a list in our one layout, and answers how many bytes it has. A refusal (5 the list is misshapen, 3 too
// little room) changes nothing.
pub fn write(list: &[u32], count: usize, out: &mut [u8]) -> Result<usize, Refusal>
    ensures { WroteRecords list.now count out.old out.new (told result) }
{
    if is_misshapen(list, count, MAX_INPUT_LEN) {
        return Err(Refusal::ListMisshapen);
    }
    if layout_fits(list, count, out.len()) {
        return Ok(put_list(list, count, out));
    }
    Err(Refusal::NoRoom)
}

// Reads a file's regions into a list, and answers how many there are. A refusal (10 the file is not of this form, 5 its regions are no list, 3
// too little room) changes nothing.
pub fn read(file: &[u8], out: &mut [u32]) -> Result<usize, Unread>
    ensures { ReadRecords span_values wide file.now out.old out.new (told_read result) }
{
    let n = check(file)?;
    if out.len() / WIDE < n {
        return Err(Unread::Refused(Refusal::NoRoom));
    }
    Ok(write_rows(file, out))
}
