// Numbers of 32 bits in a run, each a place of its own or four bytes, low byte first: read from a run, and written to one.
#![tactic(auto)]

pub mod reply; // what an entry answers

ghost use Rattle.search.specs.Promise.{Gives};
ghost use Rattle.std.specs.Prelude.{Bool, ℕ, List, ◌*◌, not, eqb, length, get_or};
ghost use Rattle.common.specs.Refusals.{differ};
ghost use Rattle.cells.specs.Bytes.{cells, fourfold, readable};

use common::list::WIDE;
use common::sets::index;

// What a place of a run holds: a number, or a byte of one.
pub trait Piece: Copy {
    // The numbers of a run.
    ghost numbers: { List Self → List ℕ };

    // Whether they are more or fewer than some bytes.
    ghost differs: { List ℕ → List Self → Bool };

    // How many they are.
    fn count(run: &[Self]) -> usize
        ensures { Gives (length (numbers run.now)) result };

    // The number in cell `k`, else 0.
    fn number(run: &[Self], k: usize) -> u32
        ensures { Gives (get_or (numbers run.now) k 0) result };

    // Whether a column of bytes and its column of numbers differ in length.
    fn differs(bytes: &[u8], run: &[Self]) -> bool
        ensures { Gives (differs bytes.now run.now) result };
}

impl Piece for u32 {
    ghost numbers = { λ l. l };

    ghost differs = { differ };

    fn count(run: &[u32]) -> usize {
        run.len()
    }

    fn number(run: &[u32], k: usize) -> u32 {
        if k < run.len() {
            return run[k];
        }
        0
    }

    fn differs(bytes: &[u8], run: &[u32]) -> bool {
        bytes.len() != run.len()
    }
}

impl Piece for u8 {
    ghost numbers = { cells };

    ghost differs = { λ bytes run. not (fourfold run bytes) };

    fn count(run: &[u8]) -> usize {
        run.len() / 4
    }

    fn number(run: &[u8], k: usize) -> u32 {
        cell(run, k)
    }

    fn differs(bytes: &[u8], run: &[u8]) -> bool {
        !is_fourfold(run.len(), bytes.len())
    }
}

// Whether a run of `len` bytes is four for each of `count` numbers.
fn is_fourfold(len: usize, count: usize) -> bool
    ensures { Gives (eqb len (count * 4)) result }
{
    len / 4 == count && len % 4 == 0
}

// How many bytes a region's row has in a list.
pub const ROW: usize = WIDE * 4;

// The number in cell `k`, else 0.
pub fn cell(run: &[u8], k: usize) -> u32
    ensures { Gives (get_or (cells run.now) k 0) result }
{
    if k < run.len() / 4 {
        let i = k * 4;
        let a = index(run[i]);
        let b = index(run[i + 1]);
        let c = index(run[i + 2]);
        let d = index(run[i + 3]);
        return (a + b * 256 + c * 65536 + d * 16777216) as u32;
    }
    0
}

// Whether a run has one cell for each limit, and none is over its limit. The loop ends at the last cell whatever it finds, so that a
// compiler makes vector code of it.
pub fn cells_fit(run: &[u8], limits: &[u32]) -> bool
    ensures { Gives (readable limits.now run.now) result }
{
    if run.len() % 4 != 0 {
        return false;
    }
    if run.len() / 4 != limits.len() {
        return false;
    }
    let mut fit = true;
    for k in 0..limits.len() {
        fit = fit & (cell(run, k) <= limits[k]);
    }
    fit
}
