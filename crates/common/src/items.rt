// What both item scanners ask of a line.
ghost use Rattle.search.specs.Promise.{Gives};
ghost use Rattle.search.specs.Search.{either, holds};
ghost use Rattle.common.specs.Items.{leads};
ghost use Rattle.common.specs.Later.{leads_by, LedBy};

use search::is_blank;

// Whether a separator or a tab stands at place `k`.
pub fn blank_at(src: &[u8], k: usize, sep: u8, tab: u8) -> bool
    ensures { Gives (holds (either sep tab) src.now k) result }
{
    k < src.len() && is_blank(src[k], sep, tab)
}

// Whether only separators and tabs stand before `p` on its line, where `k` is taken for a place that does not lead its line, 0 for none:
// a place that only separators and tabs part from it does not lead either, so the walk back ends there.
fn leads_from(src: &[u8], p: usize, eol: u8, sep: u8, tab: u8, k: usize) -> bool
    ensures { Gives (leads_by eol sep tab src.now k p) result }
{
    if p > src.len() {
        return false;
    }
    for at in (0..p).rev() {
        if at + 1 == k {
            return false;
        }
        let b = src[at];
        if !is_blank(b, sep, tab) {
            return b == eol;
        }
    }
    true
}

// The same without such a place.
pub fn leads_line(src: &[u8], p: usize, eol: u8, sep: u8, tab: u8) -> bool
    ensures { Gives (leads eol sep tab src.now p) result }
{
    leads_from(src, p, eol, sep, tab, 0)
}

// The same asked of one place after another. `lost` holds a place that does not lead its line, 0 for none: 0 at first, and then as the
// last question left it, so that separators and tabs are not walked back over for every place behind them.
pub fn leads_later(src: &[u8], p: usize, eol: u8, sep: u8, tab: u8, lost: &mut usize) -> bool
    ensures { LedBy eol sep tab src.now p lost.old result lost.new }
{
    let leads = leads_from(src, p, eol, sep, tab, *lost);
    if !leads {
        *lost = p;
    }
    leads
}
