// Why a line is not on the work sheet, by a list in bytes.
ghost use Rattle.std.specs.Prelude.{[], ◌∷◌};
ghost use Rattle.common.specs.Refusals.{given};
ghost use Rattle.cells.specs.Bytes.{cells};
ghost use Rattle.cells.specs.Reply.{Replied};
ghost use Rattle.explain.specs.Reasons.{explain_answer, reason_values};

use cells::reply;
use explain::{Reason, explain};

// One value.
fn one(x: usize, answer: &mut [u8]) -> u32
    ensures { Replied (given (x ∷ [])) answer.old answer.new result }
{
    let all = [x];
    reply::values(&all, answer)
}

// A reason by its number, and behind 6 the region's number, start and end.
fn reason(why: Reason, answer: &mut [u8]) -> u32
    ensures { Replied (given (reason_values why)) answer.old answer.new result }
{
    match why {
        Reason::OnSheet => one(0, answer),
        Reason::NoLine => one(1, answer),
        Reason::NoLead => one(2, answer),
        Reason::TenDigits => one(3, answer),
        Reason::NoDelimiter => one(4, answer),
        Reason::NoBlank => one(5, answer),
        Reason::Hidden(k, region) => {
            let all = [6, k, region.start as usize, region.end as usize];
            reply::values(&all, answer)
        }
    }
}

// Why a line, counted from 1, is not on the house work sheet of a text and a list of `count` regions: 0 it is, 1 to 6 the first reason that
// holds; behind 6 the number of the region that hides it, its start and its end.
#[unsafe(no_mangle)]
pub extern "C" fn rack_explain(
    text: &[u8],
    list: &[u8],
    count: u32,
    line: usize,
    answer: &mut [u8],
) -> u32
    ensures { Replied (explain_answer (cells list.now) count text.now line) answer.old
        answer.new result }
{
    match explain(text, list, count as usize, line) {
        Ok(why) => reason(why, answer),
        Err(r) => r.number(),
    }
}
