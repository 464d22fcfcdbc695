// Section 10: why a line is not on the work sheet.
use crate::lists;
use common::grammar::Grammar;
use common::refusal::Refusal;
use explain::{Reason, explain};
use rules::columns::{InlineColumns, RuleColumns};
use stored::asked::Asked;
use stored::numbers::Numbers;

// By a list that is given, with its stated count, or by the one that is built of the text.
pub(crate) fn ask(asked: Asked<'_>, reply: Numbers) -> Numbers {
    let text = asked.text;
    let line = asked.place;
    match asked.letter() {
        b'w' => {
            let count = asked.number(0) as usize;
            told(explain(text, asked.list(0), count, line), reply)
        }
        _ => by_house(text, line, reply),
    }
}

// By the regions of the house rules.
fn by_house(text: &[u8], line: usize, reply: Numbers) -> Numbers {
    let fences = [Grammar::BACKTICK, Grammar::TILDE];
    let mins = [Grammar::FENCE_MIN, Grammar::FENCE_MIN];
    let symmetric = [Grammar::BACKTICK];
    let once = [Grammar::PAIR_COUNT];
    let openers = [Grammar::OPENER];
    let closers = [Grammar::CLOSER];
    let mut space = [0u32; lists::ROOM];
    let list: &mut [u32] = &mut space;
    let rules = RuleColumns {
        fences: &fences,
        mins: &mins,
        inline: InlineColumns {
            symmetric: &symmetric,
            times: &once,
            openers: &openers,
            closers: &closers,
            counts: &once,
        },
    };
    match context::build(text, Grammar::house(), rules, list) {
        Ok(count) => told(explain(text, &list[..], count, line), reply),
        Err(r) => reply.and(0).and(r.number()),
    }
}

// 1 and the reason, or 0 and the refusal.
fn told(explained: Result<Reason, Refusal>, reply: Numbers) -> Numbers {
    match explained {
        Ok(why) => reason(why, reply.and(1)),
        Err(r) => reply.and(0).and(r.number()),
    }
}

// A reason's number, and behind 6 the region's number and places.
fn reason(why: Reason, reply: Numbers) -> Numbers {
    match why {
        Reason::OnSheet => reply.and(0),
        Reason::NoLine => reply.and(1),
        Reason::NoLead => reply.and(2),
        Reason::TenDigits => reply.and(3),
        Reason::NoDelimiter => reply.and(4),
        Reason::NoBlank => reply.and(5),
        Reason::Hidden(k, region) => reply.and(6).size(k).and(region.start).and(region.end),
    }
}
