// How many items a work sheet would have, whatever the room: a host that was refused with 3 learns what it needs.
ghost use Rattle.std.specs.Prelude.{[], ◌∷◌, ◌≤◌, length};
ghost use Rattle.search.specs.Promise.{Gives};
ghost use Rattle.common.specs.Refusals.{given};
ghost use Rattle.common.specs.Sets.{set_of};
ghost use Rattle.region.specs.Regions.{regions, built_by};
ghost use Rattle.rules.specs.Tables.{gram_in};
ghost use Rattle.rules.specs.ByteRules.{column_runs, runs_of, columns_in};
ghost use Rattle.cells.specs.Reply.{Replied};
ghost use Rattle.sheeting.specs.Sheeting.{sheet_with, SheetCounted};

use crate::hiding::Hider;
use crate::{Sieve, count_items};
use cells::reply;
use common::grammar::Grammar;
use common::sets::byte_set;
use common::span::MAX_INPUT_LEN;
use feed::start;
use lines::fence_tests::fence_table;
use rules::columns::{InlineColumns, RuleColumns};
use rules::rows::{lay_rules, no_rows};
use rules::search_bytes::Alphabet;
use rules::tables::Tables;

// How many items of a text within the limit are shown.
fn count_shown(text: &[u8], markers: &[bool; 256], delims: &[bool; 256], tables: &Tables) -> usize
    requires { length text.now ≤ 4294967295 }
    ensures { Gives (length (sheet_with tables.now.alphabet.grammar markers.now delims.now (regions
        (gram_in tables.now) text.now) text.now)) result }
{
    let walk = Sieve {
        feed: start(tables.alphabet.grammar, text, markers, delims),
        hider: Hider {
            start: 0,
            stop: 0,
            next: 0,
        },
    };
    count_items(walk, text, markers, delims, tables)
}

// All rules and both sets into tables, once, and counted by them.
fn count_by(
    text: &[u8],
    g: Grammar,
    rules: RuleColumns<u8>,
    markers: &[u8],
    delims: &[u8],
    answer: &mut [u8],
) -> u32
    requires { length text.now ≤ 4294967295 }
    ensures { Replied (given (length (sheet_with g (set_of markers.now) (set_of delims.now) (built_by g
        (columns_in (runs_of rules.entry))
        text.now) text.now) ∷ [])) answer.old answer.new result }
{
    let mut tables = Tables {
        alphabet: Alphabet::of(g, rules),
        fences: fence_table(rules.fences, rules.mins),
        rows: no_rows(),
    };
    lay_rules(&mut tables.rows, rules);
    let marker_set = byte_set(markers);
    let delim_set = byte_set(delims);
    let all = [count_shown(text, &marker_set, &delim_set, &tables)];
    reply::values(&all, answer)
}

// How many items the work sheet by these columns and sets would have. Refusals 1 and 6 are building's, 3 is for the answer run alone.
pub fn count_columns(
    text: &[u8],
    eol: u8,
    escape: u8,
    sep: u8,
    tab: u8,
    fences: &[u8],
    mins: &[u8],
    symmetric: &[u8],
    times: &[u8],
    openers: &[u8],
    closers: &[u8],
    counts: &[u8],
    markers: &[u8],
    delims: &[u8],
    answer: &mut [u8],
) -> u32
    ensures { SheetCounted (record { eol = eol; escape = escape; sep = sep; tab = tab })
        (column_runs fences.now mins.now symmetric.now times.now openers.now closers.now counts.now)
        markers.now delims.now text.now answer.old answer.new result }
{
    let rules = RuleColumns {
        fences,
        mins,
        inline: InlineColumns {
            symmetric,
            times,
            openers,
            closers,
            counts,
        },
    };
    if text.len() > MAX_INPUT_LEN {
        return 1;
    }
    if rules.differ() {
        return 6;
    }
    let g = Grammar {
        eol,
        escape,
        sep,
        tab,
    };
    count_by(text, g, rules, markers, delims, answer)
}
