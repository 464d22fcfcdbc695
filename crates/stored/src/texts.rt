// The texts of a block: all of one length over an alphabet, the first byte changing fastest, each at all its places.
ghost use Rattle.search.specs.Promise.{Gives};
ghost use Rattle.stored.specs.Texts.{name_in, without_digit, is_over, text_of, of_number, least_place, places_of, spot_of};

use search::byte_at;

// The length of the longest.
pub const LONGEST: usize = 8;

// Where a text is asked of: as a whole; at each place from its start, from its second byte on, or from its start to one past its end. A
// letter that asks nothing asks nowhere. A question may also be asked at its start alone, and name that place.
#[derive(Clone, Copy)]
pub enum Places {
    Whole,
    FromStart,
    FromSecond,
    Beyond,
    Nowhere,
    AtStart,
}

// Each kind has its number, and every other number is the last kind's.
impl From<u8> for Places {
    ghost use Rattle.std.specs.Prelude.{◌≡◌};

    ghost from_gives = { λ n places. places ≡ of_number n };

    fn from(n: u8) -> Places {
        match n {
            0 => Places::Whole,
            1 => Places::FromStart,
            2 => Places::FromSecond,
            3 => Places::Beyond,
            4 => Places::Nowhere,
            _ => Places::AtStart,
        }
    }
}

// A question of a block: the number of its text, and the place.
#[derive(Clone, Copy)]
pub struct Spot {
    pub number: usize,
    pub place: usize,
}

// The byte of an alphabet that the last digit of a number names.
pub(crate) fn named(number: usize, alphabet: &[u8]) -> u8
    ensures { Gives (name_in alphabet.now number) result }
{
    match alphabet.len() {
        0 => 0,
        size => byte_at(alphabet, number % size),
    }
}

fn without_digit(number: usize, size: usize) -> usize
    ensures { Gives (without_digit size number) result }
{
    number.checked_div(size).unwrap_or(0)
}

// Whether digits are left, or there is no text of that length.
fn is_over(left: usize, size: usize, length: usize) -> bool
    ensures { Gives (is_over left size length) result }
{
    size == 0 || length > LONGEST || left > 0
}

// The text whose bytes are named by the digits of a number, to the base of the alphabet's size, and 0 behind them. Where there is no text
// of that number these bytes are the error.
pub fn nth(number: usize, alphabet: &[u8], length: usize) -> Result<[u8; LONGEST], [u8; LONGEST]>
    ensures { Gives (text_of number alphabet.now length) result }
{
    let mut bytes = [0u8; LONGEST];
    let mut left = number;
    for i in 0..length.min(LONGEST) {
        bytes[i] = named(left, alphabet);
        left = without_digit(left, alphabet.len());
    }
    if is_over(left, alphabet.len(), length) {
        Err(bytes)
    } else {
        Ok(bytes)
    }
}

// The first place.
fn first_place(places: Places) -> u8
    ensures { Gives (least_place places) result }
{
    match places {
        Places::FromSecond => 1,
        _ => 0,
    }
}

// How many places a text of a length has.
fn places_of(places: Places, length: usize) -> u8
    ensures { Gives (places_of places length) result }
{
    let bytes = length.min(LONGEST) as u8;
    match places {
        Places::FromStart => bytes + 1,
        Places::FromSecond => bytes,
        Places::Beyond => bytes + 2,
        Places::Whole | Places::Nowhere | Places::AtStart => 1,
    }
}

// The question that so many stand before, where texts of a length are asked of at these places.
pub fn spot_of(turn: usize, places: Places, length: usize) -> Spot
    ensures { Gives (spot_of turn places length) result }
{
    let each = places_of(places, length) as usize;
    // A text of no bytes has no second. So there is no question, and no text of the number 1.
    if each == 0 {
        return Spot {
            number: 1,
            place: 0,
        };
    }
    let first = first_place(places) as usize;
    Spot {
        number: turn / each,
        place: turn % each + first,
    }
}
