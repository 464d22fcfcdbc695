// What the programs share that replay stored answers: a list is read, each question is asked of its text or of the texts of its block, and
// what was counted is printed. Which sections there are, and what these ask, is a program's own.
#![tactic(auto)]

ghost use Rattle.std.specs.Prelude.{◌≤◌, length};

mod judge; // the lines of a list
pub mod question; // a question, asked of its texts
mod report; // what is printed
pub mod sections; // what a program has of its own

use sections::Page;
use std::io::{Input, Print, Read};
use stored::parts::part;

// The room for all lists. What stands behind it in a longer input isn't read, and then the counts fall short.
const ROOM: usize = 2000001;

// A function makes it, since a proof takes the length of what a call answers from its type, and counts no zeros.
fn room() -> [u8; ROOM] {
    [0; ROOM]
}

// Reads lists from standard input, and prints what was counted and what differs. Where reading fails, what was read before is used; where
// printing does, the rest is printed.
pub fn replay<P: Page>(rt: &(impl Input + Print)) {
    let mut room = room();
    let room: &mut [u8] = &mut room;
    let size = read(&mut rt.reader(), room);
    judge::judge::<P>(rt, part(room, 0, size));
}

// How many bytes were read: until there is no more room, the input ends or reading fails.
fn read(input: &mut impl Read, room: &mut [u8]) -> usize
    ensures { result ≤ length room.new }
{
    let mut size = 0;
    while size < room.len() {
        match input.read(&mut room[size..]) {
            Ok(0) | Err(_) => break,
            Ok(n) => size += n,
        }
    }
    size
}
