// The work sheet of a text by its rules, in one call: the items are sieved by the regions as these are found, so that no region list
// has to cross from the host. An item is five numbers of four bytes each: start, end, kind, accepted byte, number.
#![tactic(auto)]

pub mod counting; // how many items there are
mod hiding; // what regions hide, as they come

ghost use Rattle.std.specs.Prelude.{◌/◌, ◌≤◌, leb, length};
ghost use Rattle.search.specs.Promise.{Gives};
ghost use Rattle.common.specs.Sets.{set_of};
ghost use Rattle.region.specs.Regions.{regions, built_by};
ghost use Rattle.common.specs.Lists.{Wrote};
ghost use Rattle.rules.specs.Tables.{gram_in};
ghost use Rattle.rules.specs.ByteRules.{column_runs, runs_of, columns_in};
ghost use Rattle.sheeting.specs.Sheeting.{item_bytes, ItemPut, left_by, SieveReady, ReadyBy, SieveTurned, sheet_with, SheetPoured, SheetBytes};

use cells::reply;
use cells::reply::put_numbers;
use common::grammar::Grammar;
use common::sets::byte_set;
use common::span::MAX_INPUT_LEN;
use feed::item::{SheetItem, tested_place};
use feed::{Feed, start, take};
use hiding::{Hider, hides, pass};
use lines::fence_tests::fence_table;
use rules::columns::{InlineColumns, RuleColumns};
use rules::rows::{lay_rules, no_rows};
use rules::search_bytes::Alphabet;
use rules::tables::Tables;
use sheet::item::Seen;

// Both scanners, and the region that may hide their next item.
#[derive(Clone, Copy)]
struct Sieve {
    feed: Feed,
    hider: Hider,
}

// What a turn tells, and what comes after the item.
#[derive(Clone, Copy)]
struct Sieved {
    seen: Seen,
    rest: Sieve,
}

// How many bytes an item has in a list.
const ITEM: usize = 20;

// How many items a list of `len` bytes has room for.
pub fn item_room(len: usize) -> usize
    ensures { Gives (len / 20) result }
{
    len / ITEM
}

// Writes item `n` to its bytes where there is room for it, and answers the next item's number; else nothing, and answers `n`.
pub fn put_item(out: &mut [u8], n: usize, item: SheetItem) -> usize
    ensures { ItemPut item n out.old out.new result }
{
    if item_room(out.len()) <= n {
        return n;
    }
    let all = [
        item.start as usize,
        item.end as usize,
        item.kind as usize,
        item.byte as usize,
        item.number as usize,
    ];
    put_numbers(out, n * ITEM, &all);
    n + 1
}

// Takes the next item, and tells whether it is shown.
fn turn(
    w: Sieve,
    text: &[u8],
    markers: &[bool; 256],
    delims: &[bool; 256],
    tables: &Tables,
    dead: &mut [usize; 256],
) -> Sieved
    requires { ReadyBy (gram_in tables.now) markers.now delims.now text.now dead.old w }
    ensures { SieveTurned (gram_in tables.now) markers.now delims.now
        text.now dead.new w result }
{
    let before = w.hider;
    let taken = take(w.feed, text, markers, delims);
    let head = taken.head;
    let feed = taken.rest;
    match head {
        None => Sieved {
            seen: Seen::End,
            rest: Sieve {
                feed,
                hider: before,
            },
        },
        Some(i) => {
            let place = tested_place(i);
            let hider = pass(before, place, text, tables, dead);
            let rest = Sieve { feed, hider };
            if hides(hider, place) {
                return Sieved {
                    seen: Seen::Hidden,
                    rest,
                };
            }
            Sieved {
                seen: Seen::Shown(i),
                rest,
            }
        }
    }
}

// How many items are shown.
pub(crate) fn count_items(
    walk: Sieve,
    text: &[u8],
    markers: &[bool; 256],
    delims: &[bool; 256],
    tables: &Tables,
) -> usize
    requires { SieveReady (gram_in tables.now) markers.now delims.now text.now walk }
    ensures { Gives (length (left_by (gram_in tables.now) markers.now
        delims.now text.now walk)) result }
{
    let mut dead = [0usize; 256];
    let mut w = walk;
    let mut found: usize = 0;
    loop {
        let t = turn(w, text, markers, delims, tables, &mut dead);
        let seen = t.seen;
        let rest = t.rest;
        match seen {
            Seen::End => {
                return found;
            }
            Seen::Hidden => {
                w = rest;
            }
            Seen::Shown(_) => {
                found += 1;
                w = rest;
            }
        }
    }
}

// Writes the items that are shown over the front of `out`, which has room for them, and says how many there are.
fn write_items(
    walk: Sieve,
    text: &[u8],
    markers: &[bool; 256],
    delims: &[bool; 256],
    tables: &Tables,
    out: &mut [u8],
) -> usize
    requires sieve_ready { SieveReady (gram_in tables.now) markers.now delims.now text.now walk }
    requires walk_in_bounds { length (left_by (gram_in tables.now) markers.now delims.now text.now walk) ≤ length out.old / 20 }
    ensures { Wrote item_bytes (left_by (gram_in tables.now) markers.now
        delims.now text.now walk) out.old out.new result }
{
    let mut dead = [0usize; 256];
    let mut w = walk;
    let mut found: usize = 0;
    loop {
        let t = turn(w, text, markers, delims, tables, &mut dead);
        let seen = t.seen;
        let rest = t.rest;
        match seen {
            Seen::End => {
                return found;
            }
            Seen::Hidden => {
                w = rest;
            }
            Seen::Shown(i) => {
                found = put_item(out, found, i);
                w = rest;
            }
        }
    }
}

// Whether `len` bytes have room for the items that are shown. Where it is surely enough, since an item has two bytes before its content, so that
// each scanner finds at most half as many as there are bytes, no counting pass runs.
fn fits(
    walk: Sieve,
    len: usize,
    text: &[u8],
    markers: &[bool; 256],
    delims: &[bool; 256],
    tables: &Tables,
) -> bool
    requires { SieveReady (gram_in tables.now) markers.now delims.now text.now walk }
    ensures { Gives (leb (length (left_by (gram_in tables.now) markers.now
        delims.now text.now walk)) (len / 20)) result }
{
    let most = item_room(len);
    if text.len() <= most {
        return true;
    }
    count_items(walk, text, markers, delims, tables) <= most
}

// Writes the sheet of a text within the limit, and replies how many items there are; or refuses where the list or the answer run is too
// short.
fn pour_sheet(
    text: &[u8],
    markers: &[bool; 256],
    delims: &[bool; 256],
    tables: &Tables,
    out: &mut [u8],
    answer: &mut [u8],
) -> u32
    requires { length text.now ≤ 4294967295 }
    ensures { SheetPoured (sheet_with tables.now.alphabet.grammar markers.now delims.now (regions
        (gram_in tables.now) text.now) text.now)
        (record { list = out.old; answer = answer.old })
        (record { list = out.new; answer = answer.new }) result }
{
    let walk = Sieve {
        feed: start(tables.alphabet.grammar, text, markers, delims),
        hider: Hider {
            start: 0,
            stop: 0,
            next: 0,
        },
    };
    if 1 < reply::room_of(answer.len()) {
        if fits(walk, out.len(), text, markers, delims, tables) {
            let found = write_items(walk, text, markers, delims, tables, out);
            let all = [found];
            return reply::values(&all, answer);
        }
        return 3;
    }
    3
}

// All rules and both sets into tables, once, and on.
fn by_columns(
    text: &[u8],
    g: Grammar,
    rules: RuleColumns<u8>,
    markers: &[u8],
    delims: &[u8],
    out: &mut [u8],
    answer: &mut [u8],
) -> u32
    requires { length text.now ≤ 4294967295 }
    ensures { SheetPoured (sheet_with g (set_of markers.now) (set_of delims.now) (built_by g
        (columns_in (runs_of rules.entry))
        text.now) text.now)
        (record { list = out.old; answer = answer.old })
        (record { list = out.new; answer = answer.new }) result }
{
    let mut tables = Tables {
        alphabet: Alphabet::of(g, rules),
        fences: fence_table(rules.fences, rules.mins),
        rows: no_rows(),
    };
    lay_rules(&mut tables.rows, rules);
    let marker_set = byte_set(markers);
    let delim_set = byte_set(delims);
    pour_sheet(text, &marker_set, &delim_set, &tables, out, answer)
}

// The work sheet of a text by rules given as columns, as building takes them, and by the accepted marker and delimiter bytes: the items
// whose marker or delimiter is in none of the regions that building finds. Item k goes to bytes 20k to 20k + 19 of `out`, and the answer is how
// many there are. A refusal (1 the text is too long, 6 columns differ, 3 too little room) changes nothing.
pub fn sheet_columns(
    text: &[u8],
    eol: u8,
    escape: u8,
    sep: u8,
    tab: u8,
    fences: &[u8],
    mins: &[u8],
    symmetric: &[u8],
    times: &[u8],
    openers: &[u8],
    closers: &[u8],
    counts: &[u8],
    markers: &[u8],
    delims: &[u8],
    out: &mut [u8],
    answer: &mut [u8],
) -> u32
    ensures { SheetBytes (record { eol = eol; escape = escape; sep = sep; tab = tab })
        (column_runs fences.now mins.now symmetric.now times.now openers.now closers.now counts.now)
        markers.now delims.now text.now
        (record { list = out.old; answer = answer.old })
        (record { list = out.new; answer = answer.new }) result }
{
    let rules = RuleColumns {
        fences,
        mins,
        inline: InlineColumns {
            symmetric,
            times,
            openers,
            closers,
            counts,
        },
    };
    if text.len() > MAX_INPUT_LEN {
        return 1;
    }
    if rules.differ() {
        return 6;
    }
    let g = Grammar {
        eol,
        escape,
        sep,
        tab,
    };
    by_columns(text, g, rules, markers, delims, out, answer)
}
