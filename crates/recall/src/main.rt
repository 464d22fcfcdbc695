// Replays stored answers: regions, the cursor, the work sheet, explanations, records, and what the page says by itself. Standard input holds lists of
// questions with their answers; ours are asked the same, and each line whose answer isn't the same is told. The head of each list says how to read it.
#![tactic(auto)]

ghost use Rattle.std.specs.Prelude.{◌≤◌, length};

mod lists; // lists of so many cells
mod covers; // section 7: the cursor
mod explains; // section 10: why a line is not on the work sheet
mod files; // section 11: records for other tools
mod judge; // the lines of a list
mod page; // section 0: what the page says by itself
mod question; // a question, asked of its texts
mod regions; // section 6: regions, and the bytes that are searched for
mod report; // what is printed
mod sections; // which section asks what
mod sheets; // section 8: the work sheet

use std::io::Read;
use stored::parts::part;

// The room for all lists. What stands behind it in a longer input isn't read, and then the counts fall short.
const ROOM: usize = 2000001;

// A function makes it, since a proof takes the length of what a call answers from its type, and counts no zeros.
fn room() -> [u8; ROOM] {
    [0; ROOM]
}

// Where reading fails, what was read before is used; where printing does, the rest is printed.
fn main(rt: HostRuntime) {
    let mut room = room();
    let room: &mut [u8] = &mut room;
    let size = read(&mut rt.reader(), room);
    judge::judge(&rt, part(room, 0, size));
}

// How many bytes were read: until there is no more room, the input ends or reading fails.
fn read(input: &mut impl Read, room: &mut [u8]) -> usize
    ensures { result ≤ length room.new }
{
    let mut size = 0;
    while size < room.len() {
        match input.read(&mut room[size..]) {
            Ok(0) | Err(_) => break,
            Ok(n) => size += n,
        }
    }
    size
}
