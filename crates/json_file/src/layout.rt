// Our one layout of a list, put into a run as far as it reaches: so that the same code counts and writes.
ghost use Rattle.std.specs.Prelude.{ℕ, ◌≡◌, false, [], ◌∷◌, ◌++◌, ◌≤◌, leb, length};
ghost use Rattle.search.specs.Promise.{Gives};
ghost use Rattle.decimal.specs.Decimal.{decimal};
ghost use Rattle.cover.specs.Shape.{misshapen};
ghost use Rattle.put.specs.Put.{Put, LaidWithin};
ghost use Rattle.json_file.specs.Layout.{start_lead, end_lead, object_of, objects_of, lead_of, layout};
ghost use Rattle.json_file.specs.Grammar.{greatest};
ghost use Rattle.json_file.specs.Records.{regions_of};

use cells::Piece;
use common::span::Span;
use cover::shape::region_at;
use put::{put_bytes, put_number};

// No object has more bytes, with the comma before it.
const LONGEST: usize = 38;

// One byte at place `n`, and the next place.
fn put_byte(out: &mut [u8], n: usize, b: u8) -> usize
    requires { n ≤ 1000000000000000000 }
    ensures { LaidWithin 1 (b ∷ []) n out.old out.new result }
{
    let piece = [b];
    n + put_bytes(out, n, &piece)
}

// A number's digits, and the next place.
fn put_digits(out: &mut [u8], n: usize, x: u32) -> usize
    requires { n ≤ 1000000000000000000 }
    ensures { LaidWithin 10 (decimal x) n out.old out.new result }
{
    n + put_number(out, n, x)
}

// An object's first half at place `n`, and the next place.
fn put_start(out: &mut [u8], n: usize, x: u32) -> usize
    requires { n ≤ 281474976710656 }
    ensures { LaidWithin 19 (start_lead ++ decimal x) n out.old out.new result }
{
    let i = n + put_bytes(out, n, b"{\"start\":");
    put_digits(out, i, x)
}

// Its second half without the brace.
fn put_end(out: &mut [u8], n: usize, x: u32) -> usize
    requires { n ≤ 281474976711000 }
    ensures { LaidWithin 17 (end_lead ++ decimal x) n out.old out.new result }
{
    let i = n + put_bytes(out, n, b",\"end\":");
    put_digits(out, i, x)
}

// A region's object at place `n`, and the next place.
fn put_object(out: &mut [u8], n: usize, region: Span) -> usize
    requires { n ≤ 281474976710656 }
    ensures { LaidWithin 37 (object_of region) n out.old out.new result }
{
    let i = put_start(out, n, region.start);
    let j = put_end(out, i, region.end);
    put_byte(out, j, b'}')
}

// Region `k`, behind a comma where it isn't the first.
fn put_region(out: &mut [u8], n: usize, k: usize, region: Span) -> usize
    requires { n ≤ 281474976710000 }
    ensures { LaidWithin 38 (lead_of k (object_of region)) n out.old out.new result }
{
    if k == 0 {
        return put_object(out, n, region);
    }
    let i = put_byte(out, n, b',');
    put_object(out, i, region)
}

// The objects of the first `count` regions from place 1 on, and the next place.
fn put_objects<T: Piece>(list: &[T], count: usize, out: &mut [u8]) -> usize
    requires { misshapen (T.numbers list.now) count greatest ≡ false }
    ensures { LaidWithin 200000000000 (objects_of (regions_of count (T.numbers list.now))) 1 out.old out.new result }
{
    let mut n = 1;
    for k in 0..count {
        n = put_region(out, n, k, region_at(list, k));
    }
    n
}

// The layout of the first `count` regions from place 0 on, and how many bytes it has.
pub(crate) fn put_list<T: Piece>(list: &[T], count: usize, out: &mut [u8]) -> usize
    requires { misshapen (T.numbers list.now) count greatest ≡ false }
    ensures { Put (layout (regions_of count (T.numbers list.now))) 0 out.old out.new result }
{
    put_byte(out, 0, b'[');
    let n = put_objects(list, count, out);
    put_byte(out, n, b']')
}

// Whether `len` bytes have room for the layout. Where it is surely enough, no counting pass runs.
pub(crate) fn layout_fits<T: Piece>(list: &[T], count: usize, len: usize) -> bool
    requires { misshapen (T.numbers list.now) count greatest ≡ false }
    ensures { Gives (leb (length (layout (regions_of count (T.numbers list.now)))) len) result }
{
    if count * LONGEST + 2 <= len {
        return true;
    }
    let mut none = [0u8; 0];
    put_list(list, count, &mut none) <= len
}
