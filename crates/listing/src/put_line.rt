// Lines, put at a place of a run. What lies past the run's end is passed over but counted: so that the same code counts and writes. A
// listing ends at or before place 1,000,000 and its lines are short, so that no place is too large for a sum.
ghost use Rattle.std.specs.Prelude.{[], ◌∷◌, ◌≤◌};
ghost use Rattle.decimal.specs.Decimal.{decimal};
ghost use Rattle.listing.specs.Lines.{field, fields, line};
ghost use Rattle.put.specs.Put.{LaidWithin};

use put::{put_bytes, put_number};

const TAB: u8 = 9;

const EOL: u8 = 10;

// One byte at place `n`, and the next place.
fn put_byte(out: &mut [u8], n: usize, b: u8) -> usize
    requires { n ≤ 1000000000000000000 }
    ensures { LaidWithin 1 (b ∷ []) n out.old out.new result }
{
    let piece = [b];
    n + put_bytes(out, n, &piece)
}

// A number's digits, and the next place.
fn put_digits(out: &mut [u8], n: usize, x: u32) -> usize
    requires { n ≤ 1000000000000000000 }
    ensures { LaidWithin 10 (decimal x) n out.old out.new result }
{
    n + put_number(out, n, x)
}

// A tab and a number.
fn put_field(out: &mut [u8], n: usize, x: u32) -> usize
    requires { n ≤ 1000080 }
    ensures { LaidWithin 11 (field x) n out.old out.new result }
{
    let k = put_byte(out, n, TAB);
    put_digits(out, k, x)
}

// A line's letter and its first two fields.
fn put_head(out: &mut [u8], n: usize, letter: u8, a: u32, b: u32) -> usize
    requires { n ≤ 1000000 }
    ensures { LaidWithin 23 (letter ∷ fields (a ∷ b ∷ [])) n out.old out.new result }
{
    let i = put_byte(out, n, letter);
    let j = put_field(out, i, a);
    put_field(out, j, b)
}

// A line's letter and its first three fields.
fn put_head_three(out: &mut [u8], n: usize, letter: u8, a: u32, b: u32, c: u32) -> usize
    requires { n ≤ 1000000 }
    ensures { LaidWithin 34 (letter ∷ fields (a ∷ b ∷ c ∷ [])) n out.old out.new result }
{
    let i = put_head(out, n, letter, a, b);
    put_field(out, i, c)
}

// Lines of one, two, three and four fields.
pub(crate) fn put_one(out: &mut [u8], n: usize, letter: u8, a: u32) -> usize
    requires { n ≤ 1000000 }
    ensures { LaidWithin 13 (line letter (a ∷ [])) n out.old out.new result }
{
    let i = put_byte(out, n, letter);
    let j = put_field(out, i, a);
    put_byte(out, j, EOL)
}

pub(crate) fn put_two(out: &mut [u8], n: usize, letter: u8, a: u32, b: u32) -> usize
    requires { n ≤ 1000000 }
    ensures { LaidWithin 24 (line letter (a ∷ b ∷ [])) n out.old out.new result }
{
    let i = put_head(out, n, letter, a, b);
    put_byte(out, i, EOL)
}

pub(crate) fn put_three(out: &mut [u8], n: usize, letter: u8, a: u32, b: u32, c: u32) -> usize
    requires { n ≤ 1000000 }
    ensures { LaidWithin 35 (line letter (a ∷ b ∷ c ∷ [])) n out.old out.new result }
{
    let i = put_head_three(out, n, letter, a, b, c);
    put_byte(out, i, EOL)
}

pub(crate) fn put_four(
    out: &mut [u8],
    n: usize,
    letter: u8,
    a: u32,
    b: u32,
    c: u32,
    d: u32,
) -> usize
    requires { n ≤ 1000000 }
    ensures { LaidWithin 46 (line letter (a ∷ b ∷ c ∷ d ∷ [])) n out.old out.new result }
{
    let i = put_head_three(out, n, letter, a, b, c);
    let j = put_field(out, i, d);
    put_byte(out, j, EOL)
}
