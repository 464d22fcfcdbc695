// Byte sets: predicates on bytes as tables of 256 entries.
ghost use Rattle.std.specs.Prelude.{false};
ghost use Rattle.search.specs.Promise.{Gives};
ghost use Rattle.common.specs.Rules.{entry};
ghost use Rattle.common.specs.Sets.{Index, set_of, class_of, class_set, probe};

use crate::classes::CLASSES;

// A byte's place in a table of 256 entries.
pub fn index(b: u8) -> usize
    ensures { Index b result }
{
    b as usize
}

// Whether a set accepts a byte.
pub fn accepts(set: &[bool; 256], b: u8) -> bool
    ensures { Gives (entry false set.now b) result }
{
    set[b as usize]
}

// The entry of a table for a byte.
pub fn number_of(table: &[u8; 256], b: u8) -> u8
    ensures { Gives (entry 0 table.now b) result }
{
    table[b as usize]
}

// The set of the accepted bytes: 256 false entries that gain them.
pub fn byte_set(accepted: &[u8]) -> [bool; 256]
    ensures { Gives (set_of accepted.now) result }
{
    let mut set = [false; 256];
    for b in accepted {
        set[index(*b)] = true;
    }
    set
}

// The house class of a byte.
pub fn class(b: u8) -> u8
    ensures { Gives (class_of b) result }
{
    CLASSES[b as usize]
}

// The set of the bytes of a house class: `Grammar::MARKERS`, `Grammar::DELIMITERS` or `Grammar::DIGITS`.
pub fn class_set(wanted: u8) -> [bool; 256]
    ensures { Gives (class_set wanted) result }
{
    let mut set = [false; 256];
    for (b, has) in set.iter_mut().enumerate() {
        *has = class(b as u8) == wanted;
    }
    set
}

// What a streaming search needs of a set: its needles, how many, and whether there are few enough to stream. Its fields stand one by
// one in the item scanners' states, which C reads.
#[derive(Clone, Copy)]
pub struct Probe {
    pub needles: [u8; 3],
    pub nn: usize,
    pub streaming: bool,
}

// The accepted bytes in rising order, up to three, unused places 0. More than three are too many to search for at once: then the
// first three stand there, with count 0 and the flag off.
pub fn probe_matcher(matches: &[bool; 256]) -> Probe
    ensures { Gives (probe matches.now) result }
{
    let mut needles = [0u8; 3];
    let mut n = 0;
    for (b, accepted) in matches.iter().enumerate() {
        if !*accepted {
            continue;
        }
        if n == 3 {
            return Probe {
                needles,
                nn: 0,
                streaming: false,
            };
        }
        needles[n] = b as u8;
        n += 1;
    }
    Probe {
        needles,
        nn: n,
        streaming: true,
    }
}
