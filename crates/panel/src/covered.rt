// The cursor's number form over a list in bytes.
ghost use Rattle.cells.specs.Reply.{Replied};
ghost use Rattle.panel.specs.Covered.{covered};

use cells::reply;
use common::refusal::Refusal;
use cover::cursor::covering_end;

// If a place is inside a region, that region's end, behind the index to go on from; the index alone where it is not.
#[unsafe(no_mangle)]
pub extern "C" fn rack_covering_end(
    list: &[u8],
    count: u32,
    index: u32,
    place: usize,
    answer: &mut [u8],
) -> u32
    ensures { Replied (covered list.now count index place) answer.old answer.new result }
{
    let cover = covering_end(list, count as usize, index as usize, place);
    let found = cover.found;
    match found {
        Ok(Some(end)) => {
            let all = [cover.index, end];
            reply::values(&all, answer)
        }
        Ok(None) => {
            let all = [cover.index];
            reply::values(&all, answer)
        }
        Err(r) => r.number(),
    }
}
