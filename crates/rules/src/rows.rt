// Rules by byte: "the first rule with that byte decides", so all that a scan ever asks of the rules is a function of one byte. A row
// for each byte holds it; the rows are filled from the last rule to the first. (Whether a line opens a fence is asked of the table in
// `lines`, which is smaller.)
ghost use Rattle.std.specs.Prelude.{◌%◌, get_or};
ghost use Rattle.search.specs.Promise.{Gives};
ghost use Rattle.rules.specs.Columns.{inline_of};
ghost use Rattle.rules.specs.Rows.{cell, no_rows, pair_row, fenced_row, RulesLaid, twin, fencer, OpenersLaid, AllLaid, Folded};

use crate::columns::RuleColumns;
use cells::Piece;
use common::sets::index;
use search::byte_at;

// A byte's row: the index of its fence rule; and what it opens within a paragraph: kind 0 nothing, 1 a symmetric pair, 2 an asymmetric
// one; the closing byte of an asymmetric pair; the count; and the inline rule's index.
// Numbers for kinds, since the promises of the public functions below name a row's cells by their places.
pub type Row = [usize; 5];

pub type Rows = [[usize; 5]; 256];

// The index of a byte's fence rule.
pub fn fence_index(rows: &Rows, b: u8) -> usize
    ensures { Gives (cell rows.now b 0) result }
{
    rows[b as usize][0]
}

// What a byte opens within a paragraph.
pub fn kind_of(rows: &Rows, b: u8) -> usize
    ensures { Gives (cell rows.now b 1) result }
{
    rows[b as usize][1]
}

pub fn closer_of(rows: &Rows, b: u8) -> u8
    ensures { Gives (cell rows.now b 2 % 256) result }
{
    (rows[b as usize][2] % 256) as u8
}

pub fn count_of(rows: &Rows, b: u8) -> usize
    ensures { Gives (cell rows.now b 3) result }
{
    rows[b as usize][3]
}

pub fn index_of(rows: &Rows, b: u8) -> usize
    ensures { Gives (cell rows.now b 4) result }
{
    rows[b as usize][4]
}

// Rows of no rules.
pub fn no_rows() -> Rows
    ensures { Gives no_rows result }
{
    let row = [0usize; 5];
    [row; 256]
}

// A row with another inline rule.
pub fn pair_row(row: Row, kind: usize, closer: usize, count: usize, rule: usize) -> Row
    ensures { Gives (pair_row row kind closer count rule) result }
{
    [row[0], kind, closer, count, rule]
}

// A row with another fence rule.
fn fence_row(row: Row, rule: usize) -> Row
    ensures { Gives (fenced_row row rule) result }
{
    [rule, row[1], row[2], row[3], row[4]]
}

// The number in cell `i` of a count column, else 0.
fn count_at<T: Piece>(run: &[T], i: usize) -> usize
    ensures { Gives (get_or (T.numbers run.now) i 0) result }
{
    T::number(run, i) as usize
}

// The asymmetric rules over what stands in the rows.
fn put_openers<T: Piece>(rows: &mut Rows, openers: &[u8], closers: &[u8], counts: &[T])
    ensures { OpenersLaid openers.now closers.now (T.numbers counts.now) rows.old rows.new }
{
    for i in (0..openers.len()).rev() {
        let b = index(openers[i]);
        let closer = index(byte_at(closers, i));
        rows[b] = pair_row(rows[b], 2, closer, count_at(counts, i), i);
    }
}

// The symmetric rules over what stands in the rows.
fn put_symmetric<T: Piece>(rows: &mut Rows, symmetric: &[u8], times: &[T])
    ensures { RulesLaid symmetric.now (twin (T.numbers times.now)) rows.old rows.new }
{
    for i in (0..symmetric.len()).rev() {
        let b = index(symmetric[i]);
        rows[b] = pair_row(rows[b], 1, 0, count_at(times, i), i);
    }
}

// The indices of the fence rules over what stands in the rows.
pub fn put_fences(rows: &mut Rows, fences: &[u8])
    ensures { RulesLaid fences.now fencer rows.old rows.new }
{
    for i in (0..fences.len()).rev() {
        let b = index(fences[i]);
        rows[b] = fence_row(rows[b], i);
    }
}

// All rules of columns over what stands in the rows: they have ten kilobytes, and are filled where they stand.
pub fn lay_rules<T: Piece>(rows: &mut Rows, rules: RuleColumns<T>)
    ensures { AllLaid rules.entry.fences.now (inline_of T.numbers rules.entry.inline) rows.old rows.new }
{
    let inline = rules.inline;
    put_openers(rows, inline.openers, inline.closers, inline.counts);
    put_symmetric(rows, inline.symmetric, inline.times);
    put_fences(rows, rules.fences);
}

// All rules of columns by byte.
pub fn rule_rows<T: Piece>(rules: RuleColumns<T>) -> Rows
    ensures { Folded rules.entry.fences.now (inline_of T.numbers rules.entry.inline) result }
{
    let mut rows = no_rows();
    lay_rules(&mut rows, rules);
    rows
}
