// Why a line is not on the work sheet, by the house grammar.
//
// The text is walked once to the line, and the line's bytes are read once; one query then tells which region hides its item.
#![tactic(auto)]

pub mod leads; // where a line begins, and what leads it

ghost use Rattle.search.specs.Promise.{Gives};
ghost use Rattle.std.specs.Prelude.{ℕ};
ghost use Rattle.explain.specs.Reasons.{explain_answer, told_explained};
ghost use Rattle.explain.specs.Parts.{led_place, reason_of};

use cells::Piece;
use common::refusal::Refusal;
use common::span::Span;
use cover::cursor::{Cover, covering_end};
use cover::shape::{is_misshapen, region_at};
use feed::item::tested_place;
use leads::{Lead, line_item};

// The first reason that holds, in this order; else the line is on the sheet.
#[derive(Clone, Copy)]
pub enum Reason {
    OnSheet,
    NoLine,
    NoLead,
    TenDigits,
    NoDelimiter,
    NoBlank,
    Hidden(usize, Span), // the region's number, from 0, and the region
}

// The place by which a region hides the line's item; 0 where the line has none.
fn led_place(led: Lead) -> usize
    ensures { Gives (led_place led) result }
{
    if let Lead::Item(i) = led {
        return tested_place(i);
    }
    0
}

// The reason of a line by what leads it; where that is an item, by what a query of its place found, and the region at the query's index.
fn reason_of(led: Lead, cover: Cover, region: Span) -> Reason
    ensures { Gives (reason_of led cover region) result }
{
    let k = cover.index;
    match led {
        Lead::NoLine => Reason::NoLine,
        Lead::NoLead => Reason::NoLead,
        Lead::TenDigits => Reason::TenDigits,
        Lead::NoDelimiter => Reason::NoDelimiter,
        Lead::NoBlank => Reason::NoBlank,
        Lead::Item(_) => match cover.found {
            Ok(Some(_)) => Reason::Hidden(k, region),
            Ok(None) | Err(_) => Reason::OnSheet,
        },
    }
}

// Why line `line`, counted from 1, is not on the house work sheet of a text and a list of `count` regions, or that it is. Refusals: 1 the
// text is too long, 5 the list is misshapen. A line that doesn't exist is a reason.
pub fn explain<T: Piece>(
    text: &[u8],
    list: &[T],
    count: usize,
    line: usize,
) -> Result<Reason, Refusal>
    ensures { Gives (explain_answer (T.numbers list.now) count text.now line) (told_explained result) }
{
    let led = line_item(text, line)?;
    if is_misshapen(list, count, text.len()) {
        return Err(Refusal::ListMisshapen);
    }
    let cover = covering_end(list, count, 0, led_place(led));
    let region = region_at(list, cover.index);
    Ok(reason_of(led, cover, region))
}
