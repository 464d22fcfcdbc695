// What an entry answers.
ghost use Rattle.std.specs.Prelude.{◌++◌, ◌+◌, ◌*◌, ◌/◌, ◌≤◌, ltb, length};
ghost use Rattle.common.specs.Sets.{as_flag};
ghost use Rattle.search.specs.Promise.{Gives};
ghost use Rattle.common.specs.Entry.{flatten};
ghost use Rattle.common.specs.Refusals.{given, told, told_found};
ghost use Rattle.cells.specs.Bytes.{four};
ghost use Rattle.cells.specs.Reply.{Replied, LaidAt, LaidIf};

use common::refusal::Refusal;
use common::sets::index;

// Writes a number's four bytes from place `k` on.
fn lay_number(out: &mut [u8], k: usize, x: usize)
    requires { k + 4 ≤ length out.old }
    ensures { LaidAt k (four x) out.old out.new }
{
    let a = (x % 256) as u8;
    let b = (x / 256 % 256) as u8;
    let c = (x / 65536 % 256) as u8;
    let d = (x / 16777216 % 256) as u8;
    out[k] = a;
    out[k + 1] = b;
    out[k + 2] = c;
    out[k + 3] = d;
}

// Writes numbers from place `from` on, four bytes each.
fn lay_numbers(out: &mut [u8], from: usize, all: &[usize])
    requires { from + length all.now * 4 ≤ length out.old }
    ensures { LaidAt from (flatten four all.now) out.old out.new }
{
    for i in 0..all.len() {
        lay_number(out, from + i * 4, all[i]);
    }
}

// Writes bytes as numbers from place `from` on, four bytes each.
fn lay_bytes(out: &mut [u8], from: usize, all: &[u8])
    requires { from + length all.now * 4 ≤ length out.old }
    ensures { LaidAt from (flatten four all.now) out.old out.new }
{
    for i in 0..all.len() {
        lay_number(out, from + i * 4, index(all[i]));
    }
}

// Whether a run of `len` bytes has less room than for `n` numbers from place `from` on.
fn lacks_room(len: usize, from: usize, n: usize) -> bool
    ensures { Gives (ltb len (from + n * 4)) result }
{
    if len < from {
        return true;
    }
    (len - from) / 4 < n
}

// Writes numbers from place `from` on, four bytes each, where there is room for all of them; else nothing.
pub fn put_numbers(out: &mut [u8], from: usize, all: &[usize])
    ensures { LaidIf from (flatten four all.now) out.old out.new }
{
    if !lacks_room(out.len(), from, all.len()) {
        lay_numbers(out, from, all);
    }
}

// A flag as a number.
pub fn flag(on: bool) -> usize
    ensures { Gives (as_flag on) result }
{
    on as usize
}

// How many numbers a run of `len` bytes has room for.
pub fn room_of(len: usize) -> usize
    ensures { Gives (len / 4) result }
{
    len / 4
}

// Writes how many values there are, and these; 3 where the run is too short for them.
pub fn values(all: &[usize], answer: &mut [u8]) -> u32
    ensures { Replied (given all.now) answer.old answer.new result }
{
    if room_of(answer.len()) <= all.len() {
        return 3;
    }
    lay_number(answer, 0, all.len());
    lay_numbers(answer, 4, all);
    0
}

// The same of numbers and then bytes.
pub fn mixed(head: &[usize], tail: &[u8], answer: &mut [u8]) -> u32
    ensures { Replied (given (head.now ++ tail.now)) answer.old answer.new result }
{
    let n = head.len() + tail.len();
    if room_of(answer.len()) <= n {
        return 3;
    }
    lay_number(answer, 0, n);
    lay_numbers(answer, 4, head);
    lay_bytes(answer, 4 + head.len() * 4, tail);
    0
}

// A number, or a refusal.
pub fn number(a: Result<usize, Refusal>, answer: &mut [u8]) -> u32
    ensures { Replied (told a) answer.old answer.new result }
{
    match a {
        Ok(v) => {
            let all = [v];
            values(&all, answer)
        }
        Err(r) => r.number(),
    }
}

// A place, none, or a refusal.
pub fn found(a: Result<Option<usize>, Refusal>, answer: &mut [u8]) -> u32
    ensures { Replied (told_found a) answer.old answer.new result }
{
    match a {
        Ok(Some(v)) => {
            let all = [v];
            values(&all, answer)
        }
        Ok(None) => {
            let none = [0usize; 0];
            values(&none, answer)
        }
        Err(r) => r.number(),
    }
}
