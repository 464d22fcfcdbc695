// Bytes and numbers put at a place of a run. What lies past the run's end is passed over but counted: so that the same code counts and
// writes.
#![tactic(auto)]

ghost use Rattle.decimal.specs.Decimal.{decimal};
ghost use Rattle.put.specs.Put.{Put};

use decimal::digits_of;

// Puts bytes at the places from `n` on, and says how many they are.
pub fn put_bytes(out: &mut [u8], n: usize, piece: &[u8]) -> usize
    ensures { Put piece.now n out.old out.new result }
{
    if n < out.len() {
        let most = piece.len().min(out.len() - n);
        out[n..n + most].copy_from_slice(&piece[..most]);
    }
    piece.len()
}

// The same of a number's digits.
#[tactic(auto, using(crate::specs::PutLaws::within_rules))]
pub fn put_number(out: &mut [u8], n: usize, x: u32) -> usize
    ensures { Put (decimal x) n out.old out.new result }
{
    let digits = digits_of(x);
    put_bytes(out, n, &digits.bytes[..digits.count])
}
