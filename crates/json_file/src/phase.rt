// What may come next in a file of records, byte by byte.
ghost use Rattle.std.specs.Prelude.{◌-◌};
ghost use Rattle.search.specs.Promise.{Gives};
ghost use Rattle.json_file.specs.Form.{white, await_move, letter_byte, letter_on, letter_move, name_move, value_move, grown_move, part_gained, part_move, digit_move, first_move, closed_move, done_move, phase_move};

use search::is_digit;

// The member that an object has already, with its number.
#[derive(Clone, Copy)]
pub enum Had {
    Nothing,
    Start(u32),
    End(u32),
}

// Which of the two names.
#[derive(Clone, Copy)]
pub enum Name {
    Start,
    End,
}

// The byte that a name goes on with: a letter behind its first one, or the closing quote.
#[derive(Clone, Copy)]
pub enum Letter {
    StartT,
    StartA,
    StartR,
    StartLast,
    StartQuote,
    EndN,
    EndD,
    EndQuote,
}

// An object's members so far: one of them, or both.
#[derive(Clone, Copy)]
pub enum Part {
    Start(u32),
    End(u32),
    Both(u32, u32),
}

// What may come next.
#[derive(Clone, Copy)]
pub enum Phase {
    Begin, // the array's bracket
    First, // the first object, or the end of an empty array
    Next, // an object, behind a comma
    Opened(Had), // a member's quote
    Quoted(Had), // its name's first letter
    Naming(Had, Letter), // the next one
    Colon(Had, Name), // the colon
    Value(Had, Name), // the number's first digit
    Number(Had, Name, u32), // another one, or what stands behind the number
    Member(Part), // a comma, or the object's end
    Closed, // a comma, or the array's end
    Done, // white space alone
}

// A byte more: on to a phase; an object ends, with its region; or the byte can't continue.
#[derive(Clone, Copy)]
pub enum Move {
    On(Phase),
    Shut(u32, u32),
    Bad,
}

// The greatest number of a file.
const GREATEST: u64 = 4294967295;

// White space as the RFC has it.
fn is_white(x: u8) -> bool
    ensures { Gives (white x) result }
{
    if x == b' ' {
        return true;
    }
    if x == b'\t' {
        return true;
    }
    if x == b'\n' {
        return true;
    }
    if x == b'\r' {
        return true;
    }
    false
}

// A byte that is asked for leads on, white space stays, and nothing else may come.
fn awaited(c: u8, here: Move, on: Move, x: u8) -> Move
    ensures { Gives (await_move c here on x) result }
{
    if is_white(x) {
        return here;
    }
    if x == c {
        return on;
    }
    Move::Bad
}

fn letter_byte(p: Letter) -> u8
    ensures { Gives (letter_byte p) result }
{
    match p {
        Letter::StartT => b't',
        Letter::StartA => b'a',
        Letter::StartR => b'r',
        Letter::StartLast => b't',
        Letter::StartQuote => b'"',
        Letter::EndN => b'n',
        Letter::EndD => b'd',
        Letter::EndQuote => b'"',
    }
}

fn letter_on(h: Had, p: Letter) -> Phase
    ensures { Gives (letter_on h p) result }
{
    match p {
        Letter::StartT => Phase::Naming(h, Letter::StartA),
        Letter::StartA => Phase::Naming(h, Letter::StartR),
        Letter::StartR => Phase::Naming(h, Letter::StartLast),
        Letter::StartLast => Phase::Naming(h, Letter::StartQuote),
        Letter::StartQuote => Phase::Colon(h, Name::Start),
        Letter::EndN => Phase::Naming(h, Letter::EndD),
        Letter::EndD => Phase::Naming(h, Letter::EndQuote),
        Letter::EndQuote => Phase::Colon(h, Name::End),
    }
}

fn next_letter(h: Had, p: Letter, x: u8) -> Move
    ensures { Gives (letter_move h p x) result }
{
    let c = letter_byte(p);
    if x == c {
        return Move::On(letter_on(h, p));
    }
    Move::Bad
}

// A name's first letter, of a name that the object doesn't have yet.
fn next_name(h: Had, x: u8) -> Move
    ensures { Gives (name_move h x) result }
{
    match h {
        Had::Nothing => {
            if x == b's' {
                return Move::On(Phase::Naming(Had::Nothing, Letter::StartT));
            }
            if x == b'e' {
                return Move::On(Phase::Naming(Had::Nothing, Letter::EndN));
            }
            Move::Bad
        }
        Had::Start(n) => {
            if x == b'e' {
                return Move::On(Phase::Naming(Had::Start(n), Letter::EndN));
            }
            Move::Bad
        }
        Had::End(n) => {
            if x == b's' {
                return Move::On(Phase::Naming(Had::End(n), Letter::StartT));
            }
            Move::Bad
        }
    }
}

// What a digit's byte counts.
fn digit_value(x: u8) -> u32
    ensures { Gives (x - 48) result }
{
    if x < b'0' {
        return 0;
    }
    (x - b'0') as u32
}

fn next_value(h: Had, w: Name, x: u8) -> Move
    ensures { Gives (value_move h w x) result }
{
    if is_white(x) {
        return Move::On(Phase::Value(h, w));
    }
    if is_digit(x) {
        return Move::On(Phase::Number(h, w, digit_value(x)));
    }
    Move::Bad
}

// One digit more. The sum is made in 64 bits, which hold ten times any number of 32.
fn grown(h: Had, w: Name, n: u32, d: u32) -> Move
    ensures { Gives (grown_move h w n d) result }
{
    if n == 0 {
        return Move::Bad;
    }
    let m = n as u64 * 10 + d as u64;
    if m > GREATEST {
        return Move::Bad;
    }
    Move::On(Phase::Number(h, w, m as u32))
}

// An object's members with one more.
fn ended(h: Had, w: Name, n: u32) -> Part
    ensures { Gives (part_gained h w n) result }
{
    match h {
        Had::Nothing => match w {
            Name::Start => Part::Start(n),
            Name::End => Part::End(n),
        },
        Had::Start(m) => Part::Both(m, n),
        Had::End(m) => Part::Both(n, m),
    }
}

// Behind a member: the comma, or the object's end.
fn after(q: Part, x: u8) -> Move
    ensures { Gives (part_move q x) result }
{
    match q {
        Part::Start(n) => awaited(
            b',',
            Move::On(Phase::Member(Part::Start(n))),
            Move::On(Phase::Opened(Had::Start(n))),
            x,
        ),
        Part::End(n) => awaited(
            b',',
            Move::On(Phase::Member(Part::End(n))),
            Move::On(Phase::Opened(Had::End(n))),
            x,
        ),
        Part::Both(a, b) => awaited(
            b'}',
            Move::On(Phase::Member(Part::Both(a, b))),
            Move::Shut(a, b),
            x,
        ),
    }
}

fn next_digit(h: Had, w: Name, n: u32, x: u8) -> Move
    ensures { Gives (digit_move h w n x) result }
{
    if is_digit(x) {
        return grown(h, w, n, digit_value(x));
    }
    after(ended(h, w, n), x)
}

fn next_first(x: u8) -> Move
    ensures { Gives (first_move x) result }
{
    if x == b']' {
        return Move::On(Phase::Done);
    }
    awaited(
        b'{',
        Move::On(Phase::First),
        Move::On(Phase::Opened(Had::Nothing)),
        x,
    )
}

fn next_closed(x: u8) -> Move
    ensures { Gives (closed_move x) result }
{
    if x == b']' {
        return Move::On(Phase::Done);
    }
    awaited(b',', Move::On(Phase::Closed), Move::On(Phase::Next), x)
}

fn next_done(x: u8) -> Move
    ensures { Gives (done_move x) result }
{
    if is_white(x) {
        return Move::On(Phase::Done);
    }
    Move::Bad
}

// A byte more.
pub(crate) fn step(g: Phase, x: u8) -> Move
    ensures { Gives (phase_move g x) result }
{
    match g {
        Phase::Begin => awaited(b'[', Move::On(Phase::Begin), Move::On(Phase::First), x),
        Phase::First => next_first(x),
        Phase::Next => awaited(
            b'{',
            Move::On(Phase::Next),
            Move::On(Phase::Opened(Had::Nothing)),
            x,
        ),
        Phase::Opened(h) => awaited(
            b'"',
            Move::On(Phase::Opened(h)),
            Move::On(Phase::Quoted(h)),
            x,
        ),
        Phase::Quoted(h) => next_name(h, x),
        Phase::Naming(h, p) => next_letter(h, p, x),
        Phase::Colon(h, w) => awaited(
            b':',
            Move::On(Phase::Colon(h, w)),
            Move::On(Phase::Value(h, w)),
            x,
        ),
        Phase::Value(h, w) => next_value(h, w, x),
        Phase::Number(h, w, n) => next_digit(h, w, n, x),
        Phase::Member(q) => after(q, x),
        Phase::Closed => next_closed(x),
        Phase::Done => next_done(x),
    }
}
