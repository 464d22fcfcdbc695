// Texts that are too long for a line: given in runs, or drawn.
ghost use Rattle.search.specs.Promise.{Gives};
ghost use Rattle.stored.specs.Long.{no_text, long_with_byte, with_run, in_runs, next_draw, drawn_byte, drawn_text};

use crate::texts::named;

// The room for a text, fixed, since there is no heap.
pub const ROOM: usize = 8200;

#[derive(Clone, Copy)]
pub struct Long {
    pub bytes: [u8; ROOM],
    pub size: usize,
}

// A text that was drawn, and what the next is drawn with.
#[derive(Clone, Copy)]
pub struct Drawn {
    pub bytes: [u8; ROOM],
    pub last: u32,
}

impl Long {
    fn new() -> Self
        ensures { Gives no_text result }
    {
        Long {
            bytes: [0; ROOM],
            size: 0,
        }
    }

    // What finds no room is lost. The room is written in place: a copy of it for each byte takes its time.
    fn with_byte(&mut self, byte: u8)
        ensures { Gives (long_with_byte self.old byte) self.new }
    {
        if self.size < ROOM {
            self.bytes[self.size] = byte;
            self.size += 1;
        }
    }

    fn with_run(&mut self, byte: u8, times: u32)
        ensures { Gives (with_run self.old byte times) self.new }
    {
        for _ in 0..times {
            self.with_byte(byte);
        }
    }
}

// The text whose runs are given: for each its byte and how often it stands there.
pub fn in_runs(runs: &[u32]) -> Long
    ensures { Gives (in_runs no_text runs.now) result }
{
    let mut text = Long::new();
    let mut left = runs;
    while let [byte, times, rest @ ..] = left {
        text.with_run((*byte % 256) as u8, *times);
        left = rest;
    }
    text
}

// A number below 2^31, which moves on for each byte.
fn next_draw(at: u32) -> u32
    ensures { Gives (next_draw at) result }
{
    ((at as u64 * 1103515245 + 12345) % 2147483648) as u32
}

// The byte of an alphabet that it names.
fn drawn_byte(at: u32, alphabet: &[u8]) -> u8
    ensures { Gives (drawn_byte alphabet.now at) result }
{
    named((at / 65536) as usize, alphabet)
}

pub fn draw_text(first: u32, alphabet: &[u8], length: usize) -> Drawn
    ensures { Gives (drawn_text first alphabet.now length) result }
{
    let mut bytes = [0u8; ROOM];
    let mut last = first;
    for i in 0..length.min(ROOM) {
        last = next_draw(last);
        bytes[i] = drawn_byte(last, alphabet);
    }
    Drawn { bytes, last }
}
