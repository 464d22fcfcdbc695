// Where an amendment may cut.
ghost use Rattle.std.specs.Prelude.{length};
ghost use Rattle.search.specs.Promise.{Gives};
ghost use Rattle.region.specs.Region.{reaches};
ghost use Rattle.amend.specs.Amend.{joint};
ghost use Rattle.amend.specs.Amended.{regions_in, off_joint};
ghost use Rattle.amend.specs.Parts.{Orderly, Fair};

use crate::rows::{number, starts_before};
use common::list::END;
use joint::after_empty_line;

// Whether a region that starts before `k` ends at `k` or later: only the last of those can.
fn reaches_place(list: &[u32], count: usize, k: usize) -> bool
    requires { Orderly list.now count 4294967295 }
    ensures { Gives (reaches k (regions_in count list.now)) result }
{
    let n = starts_before(list, count, k);
    n > 0 && k <= number(list, n - 1, END)
}

// Whether `k` is a joint of the text with its list.
fn is_joint(src: &[u8], list: &[u32], count: usize, k: usize, eol: u8) -> bool
    requires { Orderly list.now count 4294967295 }
    ensures { Gives (joint eol src.now (regions_in count list.now) k) result }
{
    after_empty_line(src, k, eol) && !reaches_place(list, count, k)
}

// Whether a cut is not at a joint; the second may be the text's end.
pub(crate) fn is_off_joint(
    src: &[u8],
    list: &[u32],
    count: usize,
    first: usize,
    second: usize,
    eol: u8,
) -> bool
    requires { Fair list.now count (length src.now) }
    ensures { Gives (off_joint eol src.now (regions_in count list.now) first second) result }
{
    !is_joint(src, list, count, first, eol)
        || second < src.len() && !is_joint(src, list, count, second, eol)
}
