// The lines of the region list and of the work sheet, which are made as runs of numbers first.
ghost use Rattle.std.specs.Prelude.{◌≡◌, [], ◌∷◌, ◌≤◌, ◌*◌, length};
ghost use Rattle.listing.specs.Lines.{line};
ghost use Rattle.put.specs.Put.{LaidWithin, Laid};
ghost use Rattle.listing.specs.Room.{Room};
ghost use Rattle.common.specs.Sets.{house_markers, house_delims};
ghost use Rattle.listing.specs.Listing.{row_fields, sheet_lines};
ghost use Rattle.listing.specs.Held.{RegionsIn, held_lines, ItemsIn, filed_lines};
ghost use Rattle.common.specs.Entry.{wide};

use crate::put_line::{put_four, put_three, put_two};
use common::grammar::Grammar;
use common::list::{END, WIDE};
use common::refusal::Refusal;
use context::build;
use rules::columns::{InlineColumns, RuleColumns};
use sheet::sheet;

// Numbers for the regions of 8,192 bytes: there are at most half as many as bytes, and one more.
pub(crate) const REGION_ROOM: usize = WIDE * 4097;

// Numbers for their items: each has a byte of its own.
const ITEM_ROOM: usize = 40965;

// The text's regions, and how many there are.
pub(crate) fn find_regions(text: &[u8], list: &mut [u32; REGION_ROOM]) -> usize
    requires { length text.now ≤ 8192 }
    ensures { RegionsIn text.now list.new result }
{
    let fences = [Grammar::BACKTICK, Grammar::TILDE];
    let mins = [Grammar::FENCE_MIN, Grammar::FENCE_MIN];
    let symmetric = [Grammar::BACKTICK];
    let openers = [Grammar::OPENER];
    let closers = [Grammar::CLOSER];
    let once = [Grammar::PAIR_COUNT];
    let rules = RuleColumns {
        fences: &fences,
        mins: &mins,
        inline: InlineColumns {
            symmetric: &symmetric,
            times: &once,
            openers: &openers,
            closers: &closers,
            counts: &once,
        },
    };
    match build(text, Grammar::house(), rules, list) {
        Ok(n) => n,
        Err(_) => 0, // never: there is room, and no column is longer than its others
    }
}

// The lines of the first `count` regions of a list.
pub(crate) fn put_regions(
    list: &[u32; REGION_ROOM],
    count: usize,
    out: &mut [u8],
    n: usize,
) -> usize
    requires count_bound { count ≤ 4097 }
    requires list_len { length list.now ≡ wide * 4097 }
    requires room { Room n (held_lines list.now count) }
    ensures { Laid (held_lines list.now count) n out.old out.new result }
{
    let mut i = 0;
    let mut k = n;
    while i < count {
        let at = i * WIDE;
        k = put_two(out, k, b'R', list[at], list[at + END]);
        i += 1;
    }
    k
}

// The text's work sheet by the list of its regions, and how many items it has.
fn find_items(
    text: &[u8],
    markers: &[bool; 256],
    delims: &[bool; 256],
    list: &[u32; REGION_ROOM],
    count: usize,
    items: &mut [u32; ITEM_ROOM],
) -> usize
    requires markers_value { markers.now ≡ house_markers }
    requires delims_value { delims.now ≡ house_delims }
    requires text_len_bound { length text.now ≤ 8192 }
    requires regions_in { RegionsIn text.now list.now count }
    ensures { ItemsIn text.now items.new result }
{
    match sheet(text, Grammar::house(), markers, delims, list, count, items) {
        Ok(n) => n,
        Err(_) => 0, // never: the list is in order, and there is room
    }
}

// An item's line: a marker item has no number.
fn put_item(
    out: &mut [u8],
    n: usize,
    start: u32,
    end: u32,
    kind: u32,
    byte: u32,
    number: u32,
) -> usize
    requires { n ≤ 1000000 }
    ensures { LaidWithin 46 (line 87 (row_fields (start ∷ end ∷ kind ∷ byte ∷ number ∷ []))) n out.old out.new result }
{
    if kind == 0 {
        return put_three(out, n, b'W', start, end, byte);
    }
    put_four(out, n, b'W', start, end, byte, number)
}

// The lines of the first `count` items of a sheet.
fn put_found(items: &[u32; ITEM_ROOM], count: usize, out: &mut [u8], n: usize) -> usize
    requires count_bound { count ≤ 8193 }
    requires len { length items.now ≡ 40965 }
    requires room { Room n (filed_lines items.now count) }
    ensures { Laid (filed_lines items.now count) n out.old out.new result }
{
    let mut i = 0;
    let mut k = n;
    while i < count {
        let at = i * 5;
        k = put_item(
            out,
            k,
            items[at],
            items[at + 1],
            items[at + 2],
            items[at + 3],
            items[at + 4],
        );
        i += 1;
    }
    k
}

// The lines of the work sheet.
pub(crate) fn put_sheet(
    text: &[u8],
    markers: &[bool; 256],
    delims: &[bool; 256],
    list: &[u32; REGION_ROOM],
    count: usize,
    out: &mut [u8],
    n: usize,
) -> usize
    requires markers_value { markers.now ≡ house_markers }
    requires delims_value { delims.now ≡ house_delims }
    requires text_len_bound { length text.now ≤ 8192 }
    requires regions_in { RegionsIn text.now list.now count }
    requires room { Room n (sheet_lines text.now) }
    ensures { Laid (sheet_lines text.now) n out.old out.new result }
{
    let mut items = [0u32; ITEM_ROOM];
    let found = find_items(text, markers, delims, list, count, &mut items);
    put_found(&items, found, out, n)
}
