// The lines of a list: what ours answer is compared with what is stored.
ghost use Rattle.search.specs.Promise.{Gives};
ghost use Rattle.stored.specs.Parts.{numbers_between};
ghost use Rattle.stored.specs.Tally.{judged_by};
ghost use Rattle.replaying.specs.Replying.{AnsweredIn, LineCounted};

use crate::sections::Page;
use crate::{question, report};
use std::io::Print;
use stored::line;
use stored::line::{Kind, Line};
use stored::numbers::Numbers;
use stored::parts::part;
use stored::tally::{NO_SECTION, Tally};

// Judges each line, and tells what was counted in each section.
pub(crate) fn judge<P: Page>(rt: &impl Print, text: &[u8]) {
    let mut tally = Tally::new(0, NO_SECTION, 0);
    let mut at = 0;
    for line in text.split_inclusive(|b| *b == b'\n') {
        tally = judged::<P>(rt, text, at, line::read(line), tally.next_line());
        // No place is past the text's end, so nothing is lost here; a proof would have to carry that along.
        at = at.saturating_add(line.len());
    }
    report::summary(rt, text, tally);
}

// The line that begins at `at`.
fn judged<P: Page>(rt: &impl Print, text: &[u8], at: usize, line: Line, tally: Tally) -> Tally
    ensures { LineCounted P.pages P.forms P.says at line tally result }
{
    match line.kind() {
        Kind::Comment => tally,
        Kind::Section(number) => {
            report::summary(rt, text, tally);
            Tally::new(tally.line, number, at)
        }
        Kind::Question => compared(rt, line, answer::<P>(line, tally.section), tally),
        Kind::Broken => compared(rt, line, Numbers::none(), tally),
    }
}

fn compared(rt: &impl Print, line: Line, reply: Numbers, before: Tally) -> Tally
    ensures { Gives (judged_by before line reply) result }
{
    let tally = before.judged(line, reply);
    report::told(rt, before, tally, reply);
    tally
}

// What ours answer; no number where the section has no such question. The page has every number of an answer.
fn answer<P: Page>(line: Line, section: u32) -> Numbers
    ensures { AnsweredIn P.pages P.forms P.says section line.letter line.starred (numbers_between line.numbers.cells 0 line.asked) result }
{
    let numbers = line.numbers;
    let asked = part(&numbers.cells, 0, line.asked);
    if section == 0 {
        P::reply(line.letter, asked)
    } else {
        question::reply::<P>(section, line.letter, line.starred, asked).up_to_refusal()
    }
}
