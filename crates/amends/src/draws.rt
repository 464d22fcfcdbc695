// Texts, cuts and replacements that are drawn. Cuts go back to a place behind an empty line, so that many are at joints.
ghost use Rattle.std.specs.Prelude.{◌<◌};

use crate::tally::Tally;
use crate::texts::Short;
use crate::trial::{Edit, Old};

const TIMES: u32 = 20000;

// An old text's length, and the bound of a replacement's.
const OLD: u32 = 20;

const REPLACEMENT: u32 = 13;

const ALPHABET: &[u8; 8] = b"\n\n\n~<>`a";

// Numbers below 2^31, each from the one before.
#[derive(Drop)]
struct Draws {
    last: u32,
}

impl Draws {
    // A number below a bound, from the next draw's high bits.
    fn below(&mut self, bound: u32) -> u32
        requires { 0 < bound }
        ensures { result < bound }
    {
        self.last = ((u64::from(self.last) * 1103515245 + 12345) % 2147483648) as u32;
        self.last / 65536 % bound
    }

    fn text(&mut self, length: u32) -> Short {
        let mut text = Short::new();
        for _ in 0..length {
            text.push(ALPHABET[self.below(8) as usize]);
        }
        text
    }

    fn cut(&mut self, old: &[u8]) -> usize {
        behind_empty_line(old, self.below(OLD + 1) as usize)
    }

    // An old text, two places, the replacement's length and the replacement. The lesser place is the first cut.
    fn trial(&mut self, tally: &mut Tally) {
        let old = Old::new(self.text(OLD));
        let a = self.cut(old.text());
        let b = self.cut(old.text());
        let length = self.below(REPLACEMENT);
        let text = self.text(length);
        let edit = Edit {
            first: a.min(b),
            second: a.max(b),
            text: text.as_slice(),
        };
        old.amend(edit, tally);
    }
}

pub(crate) fn all() -> Tally {
    let mut tally = Tally::new();
    let mut draws = Draws { last: 1 };
    for _ in 0..TIMES {
        draws.trial(&mut tally);
    }
    tally
}

// The last place up to `from` that is 0 or has two line ends before it; the text's end stays.
fn behind_empty_line(old: &[u8], from: usize) -> usize {
    if from == old.len() {
        return from;
    }
    let ends_empty = |k: &usize| old.get(..*k).is_some_and(|front| front.ends_with(b"\n\n"));
    (2..=from).rev().find(ends_empty).unwrap_or(0)
}
