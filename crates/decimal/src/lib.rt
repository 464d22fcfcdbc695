// Numbers in decimal, as ASCII digits without leading zeros.
#![tactic(auto)]

ghost use Rattle.std.specs.Prelude.{◌+◌, ◌%◌, length};
ghost use Rattle.search.specs.Promise.{Gives};
ghost use Rattle.decimal.specs.Decimal.{decimal, digits_of};

// The digits of a number, the first of ten bytes, and how many they are. The largest number of 32 bits has ten, and nothing
// is allocated.
#[derive(Clone, Copy)]
pub struct Digits {
    pub bytes: [u8; 10],
    pub count: usize,
}

// The last digit of a number.
fn last_digit(x: u32) -> u8
    ensures { Gives (48 + x % 10) result }
{
    b'0' + (x % 10) as u8
}

// How many digits a number has.
fn digit_count(x: u32) -> usize
    ensures { Gives (length (decimal x)) result }
{
    x.checked_ilog10().unwrap_or(0) as usize + 1
}

// The digits of a number, set from the last to the first: where the last one stands is known by their count.
pub fn digits_of(x: u32) -> Digits
    ensures { Gives (digits_of x) result }
{
    let count = digit_count(x);
    let mut bytes = [0u8; 10];
    let mut rest = x;
    for i in (0..count).rev() {
        bytes[i] = last_digit(rest);
        rest /= 10;
    }
    Digits { bytes, count }
}
