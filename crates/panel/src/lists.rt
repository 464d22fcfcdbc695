// Lists in bytes: regions by their rules, and the work sheet; each written, or counted.
ghost use Rattle.pour.specs.Building.{BuiltBytes, BuiltRules, CountedBytes};
ghost use Rattle.listed.specs.Listed.{ListedSheet, ListedCount};
ghost use Rattle.sheeting.specs.Sheeting.{SheetBytes, SheetCounted};

use listed::{count_listed, sheet_listed};
use pour::building::{build_columns, build_rules};
use sheeting::sheet_columns;

// Building by rules given as columns: fence bytes and minimums; symmetric bytes and counts; asymmetric openers, closers and counts. A
// count column has four bytes for each byte of its byte column.
#[unsafe(no_mangle)]
pub extern "C" fn rack_build(
    text: &[u8],
    eol: u8,
    escape: u8,
    sep: u8,
    tab: u8,
    fences: &[u8],
    mins: &[u8],
    symmetric: &[u8],
    times: &[u8],
    openers: &[u8],
    closers: &[u8],
    counts: &[u8],
    out: &mut [u8],
    answer: &mut [u8],
) -> u32
    ensures { BuiltBytes (record { eol = eol; escape = escape; sep = sep; tab = tab })
        (record {
          fence_bytes = fences.now;
          fence_mins = mins.now;
          inline = record {
            sym_bytes = symmetric.now;
            sym_counts = times.now;
            openers = openers.now;
            closers = closers.now;
            open_counts = counts.now;
          };
        })
        text.now (record { list = out.old; answer = answer.old })
        (record { list = out.new; answer = answer.new }) result }
{
    build_columns(
        text, eol, escape, sep, tab, fences, mins, symmetric, times, openers, closers, counts, out,
        answer,
    )
}

// How many regions building by these columns would write: the room that a list needs.
#[unsafe(no_mangle)]
pub extern "C" fn rack_build_count(
    text: &[u8],
    eol: u8,
    escape: u8,
    sep: u8,
    tab: u8,
    fences: &[u8],
    mins: &[u8],
    symmetric: &[u8],
    times: &[u8],
    openers: &[u8],
    closers: &[u8],
    counts: &[u8],
    answer: &mut [u8],
) -> u32
    ensures { CountedBytes (record { eol = eol; escape = escape; sep = sep; tab = tab })
        (record {
          fence_bytes = fences.now;
          fence_mins = mins.now;
          inline = record {
            sym_bytes = symmetric.now;
            sym_counts = times.now;
            openers = openers.now;
            closers = closers.now;
            open_counts = counts.now;
          };
        })
        text.now answer.old answer.new result }
{
    pour::counting::count_columns(
        text, eol, escape, sep, tab, fences, mins, symmetric, times, openers, closers, counts,
        answer,
    )
}

// Building by fence rules of two bytes each, a byte and a minimum, and by the inline rules' columns. An odd number of bytes is refused as
// columns that differ.
#[unsafe(no_mangle)]
pub extern "C" fn rack_build_rules(
    text: &[u8],
    eol: u8,
    escape: u8,
    sep: u8,
    tab: u8,
    rules: &[u8],
    symmetric: &[u8],
    times: &[u8],
    openers: &[u8],
    closers: &[u8],
    counts: &[u8],
    out: &mut [u8],
    answer: &mut [u8],
) -> u32
    ensures { BuiltRules (record { eol = eol; escape = escape; sep = sep; tab = tab })
        (record {
          fence_rules = rules.now;
          inline = record {
            sym_bytes = symmetric.now;
            sym_counts = times.now;
            openers = openers.now;
            closers = closers.now;
            open_counts = counts.now;
          };
        })
        text.now (record { list = out.old; answer = answer.old })
        (record { list = out.new; answer = answer.new }) result }
{
    build_rules(
        text, eol, escape, sep, tab, rules, symmetric, times, openers, closers, counts, out, answer,
    )
}

// The work sheet of a text by rules given as columns, as building takes them, and by the accepted marker and delimiter bytes: the items
// whose marker or delimiter is in none of the regions that building finds. Item k goes to bytes 20k to 20k + 19 of `out`, and the answer is how
// many there are. A refusal (1 the text is too long, 6 columns differ, 3 too little room) changes nothing.
#[unsafe(no_mangle)]
pub extern "C" fn rack_sheet(
    text: &[u8],
    eol: u8,
    escape: u8,
    sep: u8,
    tab: u8,
    fences: &[u8],
    mins: &[u8],
    symmetric: &[u8],
    times: &[u8],
    openers: &[u8],
    closers: &[u8],
    counts: &[u8],
    markers: &[u8],
    delims: &[u8],
    out: &mut [u8],
    answer: &mut [u8],
) -> u32
    ensures { SheetBytes (record { eol = eol; escape = escape; sep = sep; tab = tab })
        (record {
          fence_bytes = fences.now;
          fence_mins = mins.now;
          inline = record {
            sym_bytes = symmetric.now;
            sym_counts = times.now;
            openers = openers.now;
            closers = closers.now;
            open_counts = counts.now;
          };
        })
        markers.now delims.now text.now
        (record { list = out.old; answer = answer.old })
        (record { list = out.new; answer = answer.new }) result }
{
    sheet_columns(
        text, eol, escape, sep, tab, fences, mins, symmetric, times, openers, closers, counts,
        markers, delims, out, answer,
    )
}

// How many items that work sheet would have.
#[unsafe(no_mangle)]
pub extern "C" fn rack_sheet_count(
    text: &[u8],
    eol: u8,
    escape: u8,
    sep: u8,
    tab: u8,
    fences: &[u8],
    mins: &[u8],
    symmetric: &[u8],
    times: &[u8],
    openers: &[u8],
    closers: &[u8],
    counts: &[u8],
    markers: &[u8],
    delims: &[u8],
    answer: &mut [u8],
) -> u32
    ensures { SheetCounted (record { eol = eol; escape = escape; sep = sep; tab = tab })
        (record {
          fence_bytes = fences.now;
          fence_mins = mins.now;
          inline = record {
            sym_bytes = symmetric.now;
            sym_counts = times.now;
            openers = openers.now;
            closers = closers.now;
            open_counts = counts.now;
          };
        })
        markers.now delims.now text.now answer.old answer.new result }
{
    sheeting::counting::count_columns(
        text, eol, escape, sep, tab, fences, mins, symmetric, times, openers, closers, counts,
        markers, delims, answer,
    )
}

// The same sheet by a list of `count` regions in place of rules. A refusal (1 the text is too long, 5 the list is misshapen, 3 too little
// room) changes nothing.
#[unsafe(no_mangle)]
pub extern "C" fn rack_sheet_listed(
    text: &[u8],
    eol: u8,
    escape: u8,
    sep: u8,
    tab: u8,
    markers: &[u8],
    delims: &[u8],
    list: &[u8],
    count: u32,
    out: &mut [u8],
    answer: &mut [u8],
) -> u32
    ensures { ListedSheet (record { eol = eol; escape = escape; sep = sep; tab = tab }) markers.now delims.now
        list.now count text.now (record { list = out.old; answer = answer.old })
        (record { list = out.new; answer = answer.new }) result }
{
    sheet_listed(
        text,
        eol,
        escape,
        sep,
        tab,
        markers,
        delims,
        list,
        count as usize,
        out,
        answer,
    )
}

// How many items that sheet would have.
#[unsafe(no_mangle)]
pub extern "C" fn rack_sheet_listed_count(
    text: &[u8],
    eol: u8,
    escape: u8,
    sep: u8,
    tab: u8,
    markers: &[u8],
    delims: &[u8],
    list: &[u8],
    count: u32,
    answer: &mut [u8],
) -> u32
    ensures { ListedCount (record { eol = eol; escape = escape; sep = sep; tab = tab }) markers.now delims.now
        list.now count text.now answer.old answer.new result }
{
    count_listed(
        text,
        eol,
        escape,
        sep,
        tab,
        markers,
        delims,
        list,
        count as usize,
        answer,
    )
}
