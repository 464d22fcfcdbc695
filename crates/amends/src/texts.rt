// Short texts, and all of a length by their number.
ghost use Rattle.std.specs.Prelude.{◌≤◌};

// The room for a text: an old one and a replacement, drawn ones too.
const ROOM: usize = 32;

const TELLING: &[u8; 5] = b"\n~<>`";

// A text in a room of fixed size, since nothing is allocated.
#[derive(Clone, Copy)]
pub(crate) struct Short {
    bytes: [u8; ROOM],
    length: usize,
    ghost inside: { length ≤ 32 },
}

// How many texts of a length there are.
pub(crate) fn how_many(length: u32) -> u32 {
    5u32.saturating_pow(length)
}

impl Short {
    pub(crate) fn new() -> Self {
        Short {
            bytes: [0; ROOM],
            length: 0,
        }
    }

    // The text of a length with a number: byte j is the telling byte (number / 5^j) % 5.
    pub(crate) fn numbered(number: u32, length: u32) -> Self {
        let mut text = Short::new();
        let mut rest = number;
        for _ in 0..length {
            text.push(TELLING[(rest % 5) as usize]);
            rest /= 5;
        }
        text
    }

    pub(crate) fn as_slice(&self) -> &[u8] {
        &self.bytes[..self.length]
    }

    // A byte that there is no room for is left out.
    pub(crate) fn push(&mut self, byte: u8) {
        if self.length < ROOM {
            self.bytes[self.length] = byte;
            self.length += 1;
        }
    }

    pub(crate) fn push_all(&mut self, bytes: &[u8]) {
        for byte in bytes {
            self.push(*byte);
        }
    }
}
