// Records for other tools: a list in bytes as a file of JSON.
ghost use Rattle.json_file.specs.ByteRecords.{WroteBytes, ReadBytes};

use json_file::bytes::{PlacedReply, read_bytes, write_bytes};

// The first `count` regions of a list, written in one layout: `start` first, no white space. The answer is the file's length, in two
// numbers, the low one first.
#[unsafe(no_mangle)]
pub extern "C" fn rack_json_write(list: &[u8], count: u32, out: &mut [u8], answer: &mut [u8]) -> u32
    ensures { WroteBytes list.now count (record { list = out.old; answer = answer.old })
        (record { list = out.new; answer = answer.new }) result }
{
    write_bytes(list, count as usize, out, answer)
}

// A file's regions, read into a list. The refusal and, behind 10, the place of the first byte that can't continue a file of this form are
// handed out by value.
#[unsafe(no_mangle)]
pub extern "C" fn rack_json_read(file: &[u8], list: &mut [u8], answer: &mut [u8]) -> PlacedReply
    ensures { ReadBytes file.now (record { list = list.old; answer = answer.old })
        (record { list = list.new; answer = answer.new }) result.refusal result.place }
{
    read_bytes(file, list, answer)
}
