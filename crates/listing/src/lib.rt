// The listing: the whole text that program `spans` prints for an input, by the house grammar.
//
// One way through the code counts and writes: what lies past the run's end is passed over but counted. So a run that may be too small is
// asked for its listing's size first, and nothing is written where it is.
#![tactic(auto)]

mod put_line; // lines
mod scans; // the lines of the scanners
mod tables; // the lines of the region list and of the work sheet

ghost use Rattle.std.specs.Prelude.{◌≡◌, ◌≤◌, length};
ghost use Rattle.search.specs.Promise.{Gives};
ghost use Rattle.common.specs.Refusals.{told};
ghost use Rattle.put.specs.Put.{Laid};
ghost use Rattle.listing.specs.Room.{Room};
ghost use Rattle.listing.specs.Held.{RegionsIn};
ghost use Rattle.common.specs.Sets.{house_markers, house_delims};
ghost use Rattle.listing.specs.Listing.{entries, printed, Printed};
ghost use Rattle.listing.specs.Parts.{later_lines};

use common::grammar::Grammar;
use common::refusal::Refusal;
use common::sets::class_set;
use put_line::put_one;
use scans::put_scans;
use tables::{REGION_ROOM, find_regions, put_regions, put_sheet};

// The most bytes of a text that is listed.
const MOST_TEXT: usize = 8192;

// No listing has more bytes.
const MOST_LISTED: usize = 1000000;

// What stands behind the regions.
fn put_later(
    text: &[u8],
    markers: &[bool; 256],
    delims: &[bool; 256],
    list: &[u32; REGION_ROOM],
    count: usize,
    out: &mut [u8],
    n: usize,
) -> usize
    requires markers_value { markers.now ≡ house_markers }
    requires delims_value { delims.now ≡ house_delims }
    requires text_len_bound { length text.now ≤ 8192 }
    requires regions_in { RegionsIn text.now list.now count }
    requires room { Room n (later_lines text.now) }
    ensures { Laid (later_lines text.now) n out.old out.new result }
{
    let k = put_scans(text, markers, delims, out, n);
    put_sheet(text, markers, delims, list, count, out, k)
}

// The regions and what stands behind them.
fn put_entries(text: &[u8], out: &mut [u8]) -> usize
    requires { length text.now ≤ 8192 }
    ensures { Laid (entries text.now) 0 out.old out.new result }
{
    let mut list = [0u32; REGION_ROOM];
    let count = find_regions(text, &mut list);
    let markers = class_set(Grammar::MARKERS);
    let delims = class_set(Grammar::DELIMITERS);
    let k = put_regions(&list, count, out, 0);
    put_later(text, &markers, &delims, &list, count, out, k)
}

// The whole listing.
fn put_listing(text: &[u8], out: &mut [u8]) -> usize
    ensures { Laid (printed text.now) 0 out.old out.new result }
{
    if text.len() > MOST_TEXT {
        return put_one(out, 0, b'X', 1);
    }
    put_entries(text, out)
}

// How many bytes the listing has.
fn size(text: &[u8]) -> usize
    ensures { Gives (length (printed text.now)) result }
{
    let mut none = [0u8; 1];
    put_listing(text, &mut none)
}

// Writes the listing of a text over the front of `out`, answers how many bytes it has, and changes nothing beyond them. Where `out` is too
// small it refuses, and changes nothing. A run of 1,000,000 bytes is never too small, and its listing is made in one pass.
pub fn listing(text: &[u8], out: &mut [u8]) -> Result<usize, Refusal>
    ensures { Printed text.now out.old out.new (told result) }
{
    if out.len() < MOST_LISTED {
        if out.len() < size(text) {
            return Err(Refusal::NoRoom);
        }
        return Ok(put_listing(text, out));
    }
    Ok(put_listing(text, out))
}
