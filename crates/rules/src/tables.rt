// The tables that rules are folded into once, so that a scan asks nothing else: the bytes it goes by, which lines open fences, and a row
// for each byte.
ghost use Rattle.rules.specs.Columns.{columns_of};
ghost use Rattle.rules.specs.Tables.{TablesOf};

use crate::columns::RuleColumns;
use crate::rows::{Rows, lay_rules, no_rows};
use crate::search_bytes::Alphabet;
use cells::Piece;
use common::grammar::Grammar;
use lines::fence_tests::fence_table;

#[derive(Drop)]
pub struct Tables {
    pub alphabet: Alphabet,
    pub fences: [u16; 256],
    pub rows: Rows,
}

impl Tables {
    // By rules given as columns. A caller that makes many puts its own together, since what is answered here is copied to where it is wanted.
    pub fn of<T: Piece>(grammar: Grammar, rules: RuleColumns<T>) -> Self
        ensures { TablesOf grammar (columns_of T.numbers rules.entry) result }
    {
        let mut tables = Tables {
            alphabet: Alphabet::of(grammar, rules),
            fences: fence_table(rules.fences, rules.mins),
            rows: no_rows(),
        };
        lay_rules(&mut tables.rows, rules);
        tables
    }
}
