// Prints the listing of standard input, by the house grammar: a line for each region, fence, frame, item and item of the work sheet.
// docs/PROMISES.md, `listing`, says what the numbers of a line are.
#![tactic(auto)]

use listing::listing;
use std::io::Read;

// One byte more than is listed, so that a longer input is seen.
const INPUT_ROOM: usize = 8193;

// No listing is longer.
const OUTPUT_ROOM: usize = 1000000;

fn main(rt: HostRuntime) {
    let mut input = [0u8; INPUT_ROOM];
    let mut output = room();
    let text = read_all(&mut rt.reader(), &mut input);
    print_listing(&rt, text, &mut output);
}

// The run that a listing is written to. A function makes it, since a proof takes the length of what a call answers from its type, and
// does not count a million zeros.
fn room() -> [u8; OUTPUT_ROOM] {
    [0u8; OUTPUT_ROOM]
}

// What is read until the room is full, the input ends or a read fails. `read_exact` doesn't tell how much came before a failed read.
fn read_all<'a>(reader: &mut impl Read, room: &'a mut [u8]) -> &'a [u8] {
    let mut end = 0;
    while end < room.len() {
        match reader.read(&mut room[end..]) {
            Ok(0) | Err(_) => break,
            Ok(n) => end += n,
        }
    }
    &room[..end]
}

// What can't be written is left out.
fn print_listing(rt: &impl Print, text: &[u8], output: &mut [u8]) {
    // Always so, since there is room.
    if let Ok(n) = listing(text, output) {
        let _ = rt.write_all(&output[..n]);
    }
}
