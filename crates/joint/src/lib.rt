// What an amendment asks of the bytes at a cut, of the replacement's end and of the marks, before it looks at a list.
#![tactic(auto)]

ghost use Rattle.search.specs.Promise.{Gives};
ghost use Rattle.joint.specs.Joint.{after_empty_line, open_end, line_end_is_mark};

use search::is_at;

// Whether `k` is place 0, or at least 2 with two line ends just before it.
pub fn after_empty_line(src: &[u8], k: usize, eol: u8) -> bool
    ensures { Gives (after_empty_line eol src.now k) result }
{
    k == 0 || k >= 2 && is_at(src, k - 1, eol) && is_at(src, k - 2, eol)
}

// Whether a replacement is open at its end where old text follows: it is not empty and does not end in two line ends, or a region is said
// to reach its end.
pub fn is_left_open(follows: bool, text: &[u8], reaching: bool, eol: u8) -> bool
    ensures { Gives (open_end eol follows text.now reaching) result }
{
    follows && (reaching || !after_empty_line(text, text.len(), eol))
}

// Whether a line end escapes, or opens a pair.
pub fn marks_line_end(eol: u8, escape: u8, symmetric: &[u8], openers: &[u8]) -> bool
    ensures { Gives (line_end_is_mark eol escape symmetric.now openers.now) result }
{
    escape == eol || symmetric.contains(&eol) || openers.contains(&eol)
}
