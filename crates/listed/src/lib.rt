// The work sheet of a text by a region list in bytes, as a host in C lends it, and how many items it has. The steps are those of `sheet`,
// which reads the list where it is; here the items are written as bytes.
#![tactic(auto)]

ghost use Rattle.std.specs.Prelude.{◌≤◌, length};
ghost use Rattle.common.specs.Entry.{rows, room, wide};
ghost use Rattle.common.specs.Lists.{Wrote};
ghost use Rattle.sheet.specs.Sheet.{sheet_of};
ghost use Rattle.sheet.specs.Parts.{left, Ready};
ghost use Rattle.cells.specs.Bytes.{cells};
ghost use Rattle.sheeting.specs.Sheeting.{item_bytes, SheetPoured};
ghost use Rattle.listed.specs.Listed.{ListedSheet, ListedCount};

use cells::reply;
use common::grammar::Grammar;
use common::sets::byte_set;
use sheet::item::Seen;
use sheet::{SheetInput, Walk, judge, turn};
use sheeting::{item_room, put_item};

// Writes the items that are shown over the front of `out`, which has room for them, and says how many there are.
fn write_items(
    walk: Walk,
    text: &[u8],
    markers: &[bool; 256],
    delims: &[bool; 256],
    list: &[u8],
    count: usize,
    out: &mut [u8],
) -> usize
    requires ready { Ready markers.now delims.now (cells list.now) count text.now walk }
    requires feed_len_bound { length (left markers.now delims.now text.now (rows wide count (cells list.now)) walk.feed) ≤ room 20 out.old }
    ensures { Wrote item_bytes (left markers.now delims.now text.now (rows wide count (cells list.now))
        walk.feed) out.old out.new result }
{
    let mut w = walk;
    let mut n: usize = 0;
    loop {
        let t = turn(w, text, markers, delims, list, count);
        let seen = t.seen;
        let rest = t.rest;
        match seen {
            Seen::End => {
                return n;
            }
            Seen::Hidden => {
                w = rest;
            }
            Seen::Shown(i) => {
                n = put_item(out, n, i);
                w = rest;
            }
        }
    }
}

// Writes the sheet of a text and a list that were judged, and replies how many items there are; or refuses where the answer run or `out` is
// too short. The answer run is looked at first, so that nothing is counted where it is too short.
fn fill(
    judged: &SheetInput<u8>,
    g: Grammar,
    markers: &[bool; 256],
    delims: &[bool; 256],
    out: &mut [u8],
    answer: &mut [u8],
) -> u32
    ensures { SheetPoured (sheet_of g markers.now delims.now (cells judged.now.list.now) judged.now.count judged.now.src.now)
        (record { list = out.old; answer = answer.old })
        (record { list = out.new; answer = answer.new }) result }
{
    if 1 < reply::room_of(answer.len()) {
        let most = item_room(out.len());
        return match judged.begin_within(g, markers, delims, most) {
            Err(r) => r.number(),
            Ok(walk) => {
                let all = [write_items(
                    walk,
                    judged.src,
                    markers,
                    delims,
                    judged.list,
                    judged.count,
                    out,
                )];
                reply::values(&all, answer)
            }
        };
    }
    3
}

// Writes the work sheet of a text: the items, by the accepted marker and delimiter bytes, whose marker or delimiter is in none of the first
// `count` regions of a list in bytes. Item k goes to bytes 20k to 20k + 19 of `out`, and the answer is how many there are. A refusal (1 the
// text is too long, 5 the list is misshapen, 3 too little room) changes nothing.
pub fn sheet_listed(
    text: &[u8],
    eol: u8,
    escape: u8,
    sep: u8,
    tab: u8,
    markers: &[u8],
    delims: &[u8],
    list: &[u8],
    count: usize,
    out: &mut [u8],
    answer: &mut [u8],
) -> u32
    ensures { ListedSheet (record { eol = eol; escape = escape; sep = sep; tab = tab }) markers.now delims.now
        list.now count text.now (record { list = out.old; answer = answer.old })
        (record { list = out.new; answer = answer.new }) result }
{
    let judged = match judge(text, list, count) {
        Err(r) => return r.number(),
        Ok(judged) => judged,
    };
    let g = Grammar {
        eol,
        escape,
        sep,
        tab,
    };
    let marker_set = byte_set(markers);
    let delim_set = byte_set(delims);
    fill(&judged, g, &marker_set, &delim_set, out, answer)
}

// How many items that sheet has: what to ask before room is lent. Refusals: 1 and 5 as there, and 3 where the answer run is too short.
pub fn count_listed(
    text: &[u8],
    eol: u8,
    escape: u8,
    sep: u8,
    tab: u8,
    markers: &[u8],
    delims: &[u8],
    list: &[u8],
    count: usize,
    answer: &mut [u8],
) -> u32
    ensures { ListedCount (record { eol = eol; escape = escape; sep = sep; tab = tab }) markers.now delims.now
        list.now count text.now answer.old answer.new result }
{
    let judged = match judge(text, list, count) {
        Err(r) => return r.number(),
        Ok(judged) => judged,
    };
    let g = Grammar {
        eol,
        escape,
        sep,
        tab,
    };
    let marker_set = byte_set(markers);
    let delim_set = byte_set(delims);
    let all = [judged.count_items(g, &marker_set, &delim_set)];
    reply::values(&all, answer)
}
