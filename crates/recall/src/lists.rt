// Lists that something is written into, and what they hold then.
use common::refusal::Refusal;
use std::array;
use stored::numbers::Numbers;
use stored::parts::part;

// The most cells of a list whose size is stated.
pub(crate) const MOST: usize = 64;

// The most numbers of a list that is written whole, more than any stored answer has.
pub(crate) const ROOM: usize = 500;

// So many cells, and further ones behind them, each with a number of its own.
pub(crate) fn marked(size: usize) -> [u32; MOST] {
    array::from_fn(|i| mark(size, i))
}

fn mark(size: usize, i: usize) -> u32 {
    if i < size && size <= MOST {
        (size - i) as u32 + 1000
    } else {
        0
    }
}

// What writing into so many cells of a list answers.
pub(crate) fn into_cells<F: FnOnce(&mut [u32]) -> Result<usize, Refusal>>(
    size: usize,
    reply: Numbers,
    write: F,
) -> Numbers
    requires { F.IsAlwaysCallable write }
{
    let mut space = marked(size);
    let list: &mut [u32] = &mut space;
    let answer = first(size, list, write);
    told(answer, part(&list[..], 0, size), reply)
}

fn first<F: FnOnce(&mut [u32]) -> Result<usize, Refusal>>(
    size: usize,
    list: &mut [u32],
    write: F,
) -> Result<usize, Refusal>
    requires { F.IsAlwaysCallable write }
{
    if size <= list.len() {
        return write(&mut list[0..size]);
    }
    Ok(0)
}

// What writing into cells answered: 1, the count or 0, the refusal's number or 0, how many cells there are, and these.
fn told(answer: Result<usize, Refusal>, cells: &[u32], reply: Numbers) -> Numbers {
    match answer {
        Ok(count) => reply.value(count).and(0).list(cells),
        Err(r) => reply.and(1).and(0).and(r.number()).list(cells),
    }
}

// What writing entries of `width` numbers answered: 1, their count, and these.
pub(crate) fn entries(
    answer: Result<usize, Refusal>,
    cells: &[u32],
    width: usize,
    reply: Numbers,
) -> Numbers {
    match answer {
        Ok(count) => reply.value(count).all(part(cells, 0, end_of(count, width))),
        Err(r) => reply.refused(r),
    }
}

// Where so many entries of two or five numbers end; past every list where they are more than any stored answer has.
fn end_of(count: usize, width: usize) -> usize {
    if count > 400 {
        ROOM + 1
    } else if width == 2 {
        count * 2
    } else {
        count * 5
    }
}
