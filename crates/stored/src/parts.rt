// Parts of a run of numbers or bytes. They refuse nothing: where a run ends too early there is less.
ghost use Rattle.std.specs.Prelude.{get_or};
ghost use Rattle.search.specs.Promise.{Gives};
ghost use Rattle.stored.specs.Parts.{numbers_between, after_list, list_in, byte_at, bytes_of, is_byte, are_bytes};

use crate::numbers::MOST;

// The number at place `i`, else 0.
pub fn number_at(run: &[u32], i: usize) -> u32
    ensures { Gives (get_or run.now i 0) result }
{
    run.get(i).copied().unwrap_or(0)
}

// The same as a byte; `are_bytes` says whether it is one.
pub(crate) fn byte_at(run: &[u32], i: usize) -> u8
    ensures { Gives (byte_at run.now i) result }
{
    (number_at(run, i) % 256) as u8
}

// All numbers of a line as bytes, each at its place.
pub fn as_bytes(run: &[u32]) -> [u8; MOST]
    ensures { Gives (bytes_of run.now) result }
{
    let mut bytes = [0; MOST];
    for (i, byte) in bytes.iter_mut().enumerate() {
        *byte = byte_at(run, i);
    }
    bytes
}

// The elements from `start` up to `end`; none where these aren't bounds.
pub fn part<T>(run: &[T], start: usize, end: usize) -> &[T]
    ensures { Gives (numbers_between run.now start end) result.now }
{
    run.get(start..end).unwrap_or(&run[..0])
}

// The same of bytes, by the name that says so.
pub fn bytes_part(bytes: &[u8], start: usize, end: usize) -> &[u8]
    ensures { Gives (numbers_between bytes.now start end) result.now }
{
    part(bytes, start, end)
}

// Where the list ends whose count stands at `at`.
pub(crate) fn after_list(run: &[u32], at: usize) -> usize
    ensures { Gives (after_list run.now at) result }
{
    if at >= run.len() {
        return run.len();
    }
    let size = number_at(run, at) as usize;
    if size < run.len() - at {
        at + 1 + size
    } else {
        run.len()
    }
}

// The elements of the list whose count stands at `at` and which ends at `end`.
pub(crate) fn list<T>(run: &[T], at: usize, end: usize) -> &[T]
    ensures { Gives (list_in run.now at end) result.now }
{
    if at < end {
        part(run, at + 1, end)
    } else {
        &run[..0]
    }
}

// Whether a run's numbers are bytes: all of them, or of pairs the first.
pub(crate) fn are_bytes(run: &[u32], pairs: bool) -> bool
    ensures { Gives (are_bytes run.now pairs) result }
{
    (0..run.len()).all(|i| is_byte_at(run, i, pairs))
}

// The second of a pair is any number.
fn is_byte_at(run: &[u32], i: usize, pairs: bool) -> bool
    ensures { Gives (is_byte run.now pairs i) result }
{
    pairs && i % 2 == 1 || number_at(run, i) < 256
}
