// Building into a list in bytes: region k has its start at byte 8k and its exclusive end at byte 8k + 4. The answer is how many there
// are.
ghost use Rattle.pour.specs.Building.{PouredBy, BuiltBytes, BuiltRules};
ghost use Rattle.rules.specs.ByteRules.{inline_runs, inline_runs_of, column_runs, runs_of, columns_in, rule_columns_in};

use crate::pouring::pour;
use common::grammar::Grammar;
use common::span::MAX_INPUT_LEN;
use lines::fence_tests::fence_table;
use rules::columns::{InlineColumns, RuleColumns};
use rules::records::gather_rules;
use rules::rows::{lay_rules, no_rows};
use rules::search_bytes::Alphabet;
use rules::tables::Tables;

// All rules of columns into tables, once, and on.
fn with_columns(
    text: &[u8],
    g: Grammar,
    rules: RuleColumns<u8>,
    out: &mut [u8],
    answer: &mut [u8],
) -> u32
    ensures { PouredBy g (columns_in (runs_of rules.entry))
        text.now (record { list = out.old; answer = answer.old })
        (record { list = out.new; answer = answer.new }) result }
{
    let mut tables = Tables {
        alphabet: Alphabet::of(g, rules),
        fences: fence_table(rules.fences, rules.mins),
        rows: no_rows(),
    };
    lay_rules(&mut tables.rows, rules);
    pour(text, &tables, out, answer)
}

// Fence rules of two bytes each, by the columns of those that are kept.
fn with_rules(
    text: &[u8],
    g: Grammar,
    rules: &[u8],
    inline: InlineColumns<u8>,
    out: &mut [u8],
    answer: &mut [u8],
) -> u32
    ensures { PouredBy g
        (rule_columns_in (record { fence_rules = rules.now; inline = inline_runs_of inline.entry }))
        text.now (record { list = out.old; answer = answer.old })
        (record { list = out.new; answer = answer.new }) result }
{
    let fences = gather_rules(rules);
    with_columns(text, g, fences.columns(inline), out, answer)
}

// Building by rules given as columns: fence bytes and minimums; symmetric bytes and counts; asymmetric openers, closers and counts. A
// count column has four bytes for each byte of its byte column.
pub fn build_columns(
    text: &[u8],
    eol: u8,
    escape: u8,
    sep: u8,
    tab: u8,
    fences: &[u8],
    mins: &[u8],
    symmetric: &[u8],
    times: &[u8],
    openers: &[u8],
    closers: &[u8],
    counts: &[u8],
    out: &mut [u8],
    answer: &mut [u8],
) -> u32
    ensures { BuiltBytes (record { eol = eol; escape = escape; sep = sep; tab = tab })
        (column_runs fences.now mins.now symmetric.now times.now openers.now closers.now counts.now)
        text.now (record { list = out.old; answer = answer.old })
        (record { list = out.new; answer = answer.new }) result }
{
    if text.len() > MAX_INPUT_LEN {
        return 1;
    }
    let rules = RuleColumns {
        fences,
        mins,
        inline: InlineColumns {
            symmetric,
            times,
            openers,
            closers,
            counts,
        },
    };
    if rules.differ() {
        return 6;
    }
    let g = Grammar {
        eol,
        escape,
        sep,
        tab,
    };
    with_columns(text, g, rules, out, answer)
}

// Building by fence rules of two bytes each, a byte and a minimum, and by the inline rules' columns. An odd number of bytes is refused as
// columns that differ.
pub fn build_rules(
    text: &[u8],
    eol: u8,
    escape: u8,
    sep: u8,
    tab: u8,
    rules: &[u8],
    symmetric: &[u8],
    times: &[u8],
    openers: &[u8],
    closers: &[u8],
    counts: &[u8],
    out: &mut [u8],
    answer: &mut [u8],
) -> u32
    ensures { BuiltRules (record { eol = eol; escape = escape; sep = sep; tab = tab })
        (record {
          fence_rules = rules.now;
          inline = inline_runs symmetric.now times.now openers.now closers.now counts.now;
        })
        text.now (record { list = out.old; answer = answer.old })
        (record { list = out.new; answer = answer.new }) result }
{
    if text.len() > MAX_INPUT_LEN {
        return 1;
    }
    if rules.len() % 2 != 0 {
        return 6;
    }
    let inline = InlineColumns {
        symmetric,
        times,
        openers,
        closers,
        counts,
    };
    if inline.differ() {
        return 6;
    }
    let g = Grammar {
        eol,
        escape,
        sep,
        tab,
    };
    with_rules(text, g, rules, inline, out, answer)
}
