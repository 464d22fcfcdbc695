// Replays stored answers: the leaves, the scanners and the listing. Standard input holds lists of questions with their answers; ours are
// asked the same, and each line whose answer isn't the same is told. The head of each list says how to read it.
#![tactic(auto)]

ghost use Rattle.std.specs.Prelude.{◌≤◌, length};

mod answers; // an answer in a list's terms
mod fences; // section 2: the fence scanner
mod frames; // section 5: continuation frames
mod items; // what the item scanners share
mod judge; // the lines of a list
mod leaves; // section 1: the leaves of common.rs, and the fence tests
mod listings; // section 9: what `spans` prints
mod markers; // section 3: the marker scanner
mod numbered; // section 4: the scanner of numbered items
mod page; // section 0: what the page says of refusals
mod question; // a question, asked of its texts
mod report; // what is printed
mod sections; // which section asks what

use std::io::Read;
use stored::parts::part;

// The room for all lists. What stands behind it in a longer input isn't read, and then the counts fall short.
const ROOM: usize = 2000001;

// A function makes it, since a proof takes the length of what a call answers from its type, and counts no zeros.
fn room() -> [u8; ROOM] {
    [0; ROOM]
}

// Where reading fails, what was read before is used; where printing does, the rest is printed.
fn main(rt: HostRuntime) {
    let mut room = room();
    let room: &mut [u8] = &mut room;
    let size = read(&mut rt.reader(), room);
    judge::judge(&rt, part(room, 0, size));
}

// How many bytes were read: until there is no more room, the input ends or reading fails.
fn read(input: &mut impl Read, room: &mut [u8]) -> usize
    ensures { result ≤ length room.new }
{
    let mut size = 0;
    while size < room.len() {
        match input.read(&mut room[size..]) {
            Ok(0) | Err(_) => break,
            Ok(n) => size += n,
        }
    }
    size
}
