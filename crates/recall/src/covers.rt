// Section 7: the cursor, as a number and as a record that is lent.
use cover::cursor::{Cover, covering_end, covers_both};
use stored::asked::Asked;
use stored::numbers::Numbers;

pub(crate) fn ask(asked: Asked<'_>, reply: Numbers) -> Numbers {
    let list = asked.list(0);
    let count = asked.number(0) as usize;
    let index = asked.number(1) as usize;
    let place = asked.number(2) as usize;
    match asked.letter() {
        b'v' => told(covering_end(list, count, index, place), reply),
        _ => lent(list, count, index, place, reply),
    }
}

// One cursor lent to two queries of the place: the second stands where the first left it, and gives the same.
fn lent(list: &[u32], count: usize, index: usize, place: usize, reply: Numbers) -> Numbers {
    let both = covers_both(list, count, index, place, place);
    let found = both.second;
    reply.found(found).size(both.index)
}

// What a query gives, and the index after it.
fn told(cover: Cover, reply: Numbers) -> Numbers {
    let found = cover.found;
    reply.found(found).size(cover.index)
}
