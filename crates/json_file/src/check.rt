// The first pass over a file: whether it is of the form, with the number of its regions, or where it breaks.
ghost use Rattle.search.specs.Promise.{Gives};
ghost use Rattle.json_file.specs.Form.{outset, follow, broken_at, may_end};
ghost use Rattle.json_file.specs.Records.{checked_of, finished_as, stays_shaped};

use crate::Unread;
use crate::objects::{NextObject, next_object};
use crate::phase::Phase;
use common::refusal::Refusal;

// Whether a file may end here.
fn may_end(g: Phase) -> bool
    ensures { Gives (may_end g) result }
{
    matches!(g, Phase::Done)
}

// Whether regions that were in order up to `low` still are with one from `a` to `b`.
fn joins(good: bool, low: u32, a: u32, b: u32) -> bool
    ensures { Gives (stays_shaped good low a b) result }
{
    low <= a && a < b && good
}

// What is said at the end of a file of `len` bytes and `n` regions.
fn finished(last: Phase, good: bool, n: usize, len: usize) -> Result<usize, Unread>
    ensures { Gives (finished_as last good n len) result }
{
    if !may_end(last) {
        return Err(Unread::Broken(len));
    }
    if good {
        Ok(n)
    } else {
        Err(Unread::Refused(Refusal::ListMisshapen))
    }
}

// Reads a file to its end or to its first bad byte, and writes nothing.
pub(crate) fn check(file: &[u8]) -> Result<usize, Unread>
    ensures { Gives (checked_of (follow outset file.now) (broken_at outset file.now)) result }
{
    let mut g = Phase::Begin;
    let mut n = 0;
    let mut low = 0;
    let mut good = true;
    let mut i = 0;
    loop {
        match next_object(file, i, g) {
            NextObject::Region(a, b, next) => {
                good = joins(good, low, a, b);
                low = b;
                g = Phase::Closed;
                n += 1;
                i = next;
            }
            NextObject::Bad(place) => {
                return Err(Unread::Broken(place));
            }
            NextObject::Over(last) => {
                return finished(last, good, n, file.len());
            }
        }
    }
}
