// A question, asked of its text or of the texts of a block.
ghost use Rattle.replaying.specs.Replying.{posed, posed_in_runs, AllAsked, AllDrawn, Adds, Answered};
ghost use Rattle.stored.specs.Numbers.{no_numbers};

use crate::sections::Sections;
use stored::asked::Asked;
use stored::form::{TEXT, Way, small};
use stored::numbers::Numbers;
use stored::parts::{as_bytes, part};
use stored::sums::Sums;
use stored::{long, texts};

// What ours answer; no number where the section has no such question. The numbers that ask are handed on as they are and as bytes.
pub fn reply<S: Sections>(section: u32, letter: u8, starred: bool, numbers: &[u32]) -> Numbers
    ensures { Answered S.forms S.says section letter starred numbers.now result }
{
    let form = S::form(section, small(letter));
    let question = form.question(section, letter, numbers);
    let cells = as_bytes(numbers);
    let asked = Asked::new(question, numbers, &cells);
    match form.way(letter, starred, numbers, question) {
        Way::One => S::ask(asked, Numbers::none()),
        Way::Runs => in_runs::<S>(asked),
        Way::All => Numbers::of_block(of_all::<S>(asked)),
        Way::Drawn => Numbers::of_block(of_drawn::<S>(asked)),
        Way::Unknown => Numbers::none(),
    }
}

fn in_runs<S: Sections>(asked: Asked<'_>) -> Numbers
    ensures { S.says (posed_in_runs (posed asked.entry)) no_numbers result }
{
    let text = long::in_runs(asked.list(TEXT));
    S::ask(
        asked.of(part(&text.bytes, 0, text.size), asked.place),
        Numbers::none(),
    )
}

// All texts of a length over an alphabet, which stands where the text stands otherwise.
fn of_all<S: Sections>(asked: Asked<'_>) -> Sums
    ensures { AllAsked S.says (posed asked.entry) result }
{
    let length = asked.behind(0) as usize;
    let mut sums = Sums::new();
    // A proved loop has to end, so it ends at a number that no block has.
    for turn in 0..usize::MAX {
        let spot = texts::spot_of(turn, asked.question.places, length);
        let Ok(text) = texts::nth(spot.number, asked.text, length) else {
            break;
        };
        sums = of_text::<S>(asked.of(part(&text, 0, length), spot.place), sums);
    }
    sums
}

// Texts of a length that are drawn one after the other.
fn of_drawn<S: Sections>(asked: Asked<'_>) -> Sums
    ensures { AllDrawn S.says (posed asked.entry) result }
{
    let length = asked.behind(0) as usize;
    let mut sums = Sums::new();
    let mut draw = asked.behind(1);
    for _ in 0..asked.behind(2) {
        let text = long::draw_text(draw, asked.text, length);
        sums = of_text::<S>(asked.of(part(&text.bytes, 0, length), 0), sums);
        draw = text.last;
    }
    sums
}

// A text of a block, and the place where the question has one.
fn of_text<S: Sections>(asked: Asked<'_>, before: Sums) -> Sums
    ensures { Adds S.says (posed asked.entry) before result }
{
    let fed = before.question(asked.text, asked.question.places, asked.place);
    let reply = S::ask(asked, Numbers::after(fed));
    let sums = reply.sums;
    sums.asked()
}
