// How many regions building would write, whatever the room: a host that was refused with 3 learns what it needs.
ghost use Rattle.std.specs.Prelude.{[], ◌∷◌, length};
ghost use Rattle.common.specs.Refusals.{given};
ghost use Rattle.region.specs.Regions.{built_by};
ghost use Rattle.rules.specs.ByteRules.{column_runs, runs_of, columns_in};
ghost use Rattle.cells.specs.Reply.{Replied};
ghost use Rattle.pour.specs.Building.{CountedBytes};

use cells::reply;
use common::grammar::Grammar;
use common::span::MAX_INPUT_LEN;
use lines::fence_tests::fence_table;
use region::count_regions;
use rules::columns::{InlineColumns, RuleColumns};
use rules::rows::{lay_rules, no_rows};
use rules::search_bytes::Alphabet;
use rules::tables::Tables;

// All rules of columns into tables, once, and counted by them.
fn count_by(text: &[u8], g: Grammar, rules: RuleColumns<u8>, answer: &mut [u8]) -> u32
    ensures { Replied (given (length (built_by g (columns_in (runs_of rules.entry))
        text.now) ∷ [])) answer.old answer.new result }
{
    let mut tables = Tables {
        alphabet: Alphabet::of(g, rules),
        fences: fence_table(rules.fences, rules.mins),
        rows: no_rows(),
    };
    lay_rules(&mut tables.rows, rules);
    let all = [count_regions(text, &tables)];
    reply::values(&all, answer)
}

// How many regions building by these columns would write. Refusals 1 and 6 are building's, 3 is for the answer run alone.
pub fn count_columns(
    text: &[u8],
    eol: u8,
    escape: u8,
    sep: u8,
    tab: u8,
    fences: &[u8],
    mins: &[u8],
    symmetric: &[u8],
    times: &[u8],
    openers: &[u8],
    closers: &[u8],
    counts: &[u8],
    answer: &mut [u8],
) -> u32
    ensures { CountedBytes (record { eol = eol; escape = escape; sep = sep; tab = tab })
        (column_runs fences.now mins.now symmetric.now times.now openers.now closers.now counts.now)
        text.now answer.old answer.new result }
{
    if text.len() > MAX_INPUT_LEN {
        return 1;
    }
    let rules = RuleColumns {
        fences,
        mins,
        inline: InlineColumns {
            symmetric,
            times,
            openers,
            closers,
            counts,
        },
    };
    if rules.differ() {
        return 6;
    }
    let g = Grammar {
        eol,
        escape,
        sep,
        tab,
    };
    count_by(text, g, rules, answer)
}
