// Where a line begins, and what leads it, by the house grammar.
ghost use Rattle.std.specs.Prelude.{◌≡◌, true, ◌≤◌, length, get_or, drop};
ghost use Rattle.search.specs.Promise.{Gives};
ghost use Rattle.search.specs.Search.{digit};
ghost use Rattle.common.specs.Items.{line_bytes};
ghost use Rattle.common.specs.Grammars.{house_marks};
ghost use Rattle.common.specs.LineStarts.{line_at};
ghost use Rattle.explain.specs.Reasons.{led_from, led_by, line_led};
ghost use Rattle.explain.specs.Parts.{begins_at, sign_led, line_answer};

use block_numbered::read_digits;
use common::grammar::Grammar;
use common::items::blank_at;
use common::refusal::Refusal;
use common::sets::class;
use common::span::MAX_INPUT_LEN;
use feed::item::SheetItem;
use find::find_byte;
use search::{blank_end, byte_at, next_line};

// What a line is by its bytes alone: not there; without an item, for a reason; or an item.
#[derive(Clone, Copy)]
pub enum Lead {
    NoLine,
    NoLead,
    TenDigits,
    NoDelimiter,
    NoBlank,
    Item(SheetItem),
}

// Where line `line` begins, counted from 1, if it exists.
fn line_begin(text: &[u8], line: usize) -> Option<usize>
    ensures { Gives (line_at 10 text.now line) (begins_at result) }
{
    if line == 0 {
        return None;
    }
    let mut a = 0;
    for _ in 1..line {
        a = next_line(text.len(), find_byte(text, a, Grammar::EOL));
        if text.len() <= a {
            return None; // a line end with no byte after it starts no line
        }
    }
    Some(a)
}

// What a marker or a delimiter at `j` leads, `line` being the text up to the line's end.
fn sign_led(line: &[u8], j: usize, kind: u32, number: u32) -> Lead
    requires { length line.now ≤ 4294967295 }
    ensures { Gives (sign_led line.now j kind number) result }
{
    if j >= line.len() {
        return Lead::NoBlank;
    }
    if blank_at(line, j + 1, Grammar::SEP, Grammar::TAB) {
        return Lead::Item(SheetItem {
            start: (j + 2) as u32,
            end: line.len() as u32,
            kind,
            byte: byte_at(line, j),
            number,
        });
    }
    Lead::NoBlank
}

// What digits from `p` on lead: nine are read at the most, so that a digit behind them is the tenth.
fn number_led(line: &[u8], p: usize) -> Lead
    requires line_len_bound { length line.now ≤ 4294967295 }
    requires p_value { digit (get_or line.now p 0) ≡ true }
    ensures { Gives (led_from p (drop p line.now)) result }
{
    let read = read_digits(line, p);
    let j = read.end;
    let next = class(byte_at(line, j));
    if next == Grammar::DIGITS {
        return Lead::TenDigits;
    }
    if next == Grammar::DELIMITERS {
        return sign_led(line, j, 1, read.number);
    }
    Lead::NoDelimiter
}

// What leads a line from `p` on, where its separators and tabs end.
fn body_led(line: &[u8], p: usize) -> Lead
    requires { length line.now ≤ 4294967295 }
    ensures { Gives (led_from p (drop p line.now)) result }
{
    let lead = class(byte_at(line, p));
    if lead == Grammar::DIGITS {
        return number_led(line, p);
    }
    if lead == Grammar::MARKERS {
        return sign_led(line, p, 0, 0);
    }
    Lead::NoLead
}

// What leads the line that begins at `a`.
fn led_at(text: &[u8], a: usize) -> Lead
    requires text_len_bound { length text.now ≤ 4294967295 }
    requires a_in_bounds { a ≤ length text.now }
    ensures { Gives (led_by a (line_bytes house_marks text.now a)) result }
{
    let e = find_byte(text, a, Grammar::EOL);
    let line = &text[..e];
    let p = blank_end(line, a, Grammar::SEP, Grammar::TAB);
    body_led(line, p)
}

// What leads line `line`, counted from 1, of a text that is not too long.
fn line_led(text: &[u8], line: usize) -> Lead
    requires { length text.now ≤ 4294967295 }
    ensures { Gives (line_led text.now line) result }
{
    match line_begin(text, line) {
        Some(a) => led_at(text, a),
        None => Lead::NoLine,
    }
}

// What leads line `line`, counted from 1: a reason from 1 to 5, or its item; refusal 1 where the text is too long. It looks at no list, so
// that lists of any form share it.
pub fn line_item(text: &[u8], line: usize) -> Result<Lead, Refusal>
    ensures { Gives (line_answer text.now line) result }
{
    if text.len() > MAX_INPUT_LEN {
        return Err(Refusal::TextTooLong);
    }
    Ok(line_led(text, line))
}
