// Section 11: records for other tools, read and written.
use crate::lists;
use common::refusal::Refusal;
use json_file::Unread;
use put::put_bytes;
use std::array;
use stored::asked::Asked;
use stored::numbers::Numbers;
use stored::parts::part;
use stored::sums::Sums;
use stored::texts::Places;

// The room for a file, more than any line has.
const ROOM: usize = 1000;

// The most bytes of a run whose size is stated.
const MOST: usize = 120;

// How a file is altered: a byte left out, put or set.
#[derive(Clone, Copy)]
enum Change {
    Dropped,
    Put,
    Set,
}

// A file read; all files that differ from one in a byte; or a list written.
pub(crate) fn ask(asked: Asked<'_>, reply: Numbers) -> Numbers {
    let size = asked.number(0) as usize;
    match asked.letter() {
        b'r' => between(size, asked, reply),
        b'm' => altered(size, change_of(asked.number(1)), asked.text),
        _ => written(size, asked.number(1) as usize, asked.list(0), reply),
    }
}

fn change_of(number: u32) -> Change {
    match number {
        0 => Change::Dropped,
        1 => Change::Put,
        _ => Change::Set,
    }
}

// The file of a text, with what stands before it and behind it.
fn between(size: usize, asked: Asked<'_>, reply: Numbers) -> Numbers {
    let mut space = [0u8; ROOM];
    let file: &mut [u8] = &mut space;
    let i = put_text(file, 0, asked.bytes(0));
    let j = put_text(file, i, asked.text);
    let n = put_text(file, j, asked.bytes(1));
    read(size, part(&file[..], 0, n), reply)
}

// Puts what a text stands for at place `n` of a file, and says where it ends.
fn put_text(file: &mut [u8], n: usize, text: &[u8]) -> usize {
    let mut at = n;
    for sign in text {
        at = put_sign(file, at, *sign);
    }
    at
}

// A byte of a text: two of them stand for the names, with their quotes.
fn put_sign(file: &mut [u8], n: usize, sign: u8) -> usize {
    match sign {
        1 => put(file, n, b"\"start\""),
        2 => put(file, n, b"\"end\""),
        _ => put_byte(file, n, sign),
    }
}

fn put_byte(file: &mut [u8], n: usize, byte: u8) -> usize {
    put(file, n, &[byte])
}

// What finds no room is lost, and a file that is longer isn't read.
fn put(file: &mut [u8], n: usize, piece: &[u8]) -> usize {
    if n > ROOM {
        n
    } else {
        n + put_bytes(file, n, piece)
    }
}

fn read(size: usize, file: &[u8], reply: Numbers) -> Numbers {
    let mut space = lists::marked(size);
    let list: &mut [u32] = &mut space;
    let answer = read_first(size, file, list);
    told(answer, part(&list[..], 0, size), reply)
}

// Reads into so many cells of a list.
fn read_first(size: usize, file: &[u8], list: &mut [u32]) -> Result<usize, Unread> {
    if size <= list.len() {
        return json_file::read(file, &mut list[0..size]);
    }
    Ok(0)
}

// 1, the count or 0, the refusal or 0, its place or 0, and all cells.
fn told(answer: Result<usize, Unread>, cells: &[u32], reply: Numbers) -> Numbers {
    match answer {
        Ok(count) => reply.value(count).and(0).and(0).list(cells),
        Err(Unread::Broken(place)) => reply
            .and(1)
            .and(0)
            .and(Refusal::NotRecords.number())
            .size(place)
            .list(cells),
        Err(Unread::Refused(r)) => reply.and(1).and(0).and(r.number()).and(0).list(cells),
    }
}

// All files that differ in a byte from the one that a text stands for.
fn altered(size: usize, change: Change, text: &[u8]) -> Numbers {
    let mut space = [0u8; ROOM];
    let file: &mut [u8] = &mut space;
    let n = put_text(file, 0, text);
    Numbers::of_block(of_altered(size, change, part(&file[..], 0, n)))
}

fn of_altered(size: usize, change: Change, file: &[u8]) -> Sums {
    (0..turns_of(change, file.len())).fold(Sums::new(), |sums, turn| {
        of_turn(size, change, file, turn, sums)
    })
}

// How many files differ so from one of a length.
fn turns_of(change: Change, length: usize) -> usize {
    match change {
        _ if length > ROOM => 0,
        Change::Dropped => length,
        Change::Put => length * 256 + 256,
        Change::Set => length * 256,
    }
}

// The file that so many stand before.
fn of_turn(size: usize, change: Change, file: &[u8], turn: usize, before: Sums) -> Sums {
    let mut space = [0u8; ROOM];
    let other: &mut [u8] = &mut space;
    let n = put_other(other, change, file, turn);
    let all = part(&other[..], 0, n);
    let fed = before.question(all, Places::Whole, 0);
    let reply = read(size, all, Numbers::after(fed));
    let sums = reply.sums;
    sums.asked()
}

fn put_other(other: &mut [u8], change: Change, file: &[u8], turn: usize) -> usize {
    let place = turn / 256;
    let byte = (turn % 256) as u8;
    match change {
        Change::Dropped => {
            let n = put(other, 0, part(file, 0, turn));
            put(other, n, behind(file, turn))
        }
        Change::Put => {
            let n = put_with(other, file, place, byte);
            put(other, n, part(file, place, file.len()))
        }
        Change::Set => {
            let n = put_with(other, file, place, byte);
            put(other, n, behind(file, place))
        }
    }
}

// What stands before a place of a file, and a byte.
fn put_with(other: &mut [u8], file: &[u8], place: usize, byte: u8) -> usize {
    let n = put(other, 0, part(file, 0, place));
    put_byte(other, n, byte)
}

// What stands behind a place of a file.
fn behind(file: &[u8], place: usize) -> &[u8] {
    if place < file.len() {
        part(file, place + 1, file.len())
    } else {
        &file[..0]
    }
}

// The first `count` regions of a list, written into so many bytes.
fn written(size: usize, count: usize, list: &[u32], reply: Numbers) -> Numbers {
    let mut space = marked(size);
    let out: &mut [u8] = &mut space;
    let answer = write_first(size, count, list, out);
    told_bytes(answer, part(&out[..], 0, size), reply)
}

fn write_first(size: usize, count: usize, list: &[u32], out: &mut [u8]) -> Result<usize, Refusal> {
    if size <= out.len() {
        return json_file::write(list, count, &mut out[0..size]);
    }
    Ok(0)
}

// So many bytes, and further ones behind them, each with a number of its own that no layout has. They stand beside the cells of `lists`: the
// sums of two types are no plainer in one.
fn marked(size: usize) -> [u8; MOST] {
    array::from_fn(|i| mark(size, i))
}

fn mark(size: usize, i: usize) -> u8 {
    if i < size && size <= MOST {
        (size - i) as u8 + 128
    } else {
        0
    }
}

// 1, the size or 0, the refusal or 0, and all bytes.
fn told_bytes(answer: Result<usize, Refusal>, bytes: &[u8], reply: Numbers) -> Numbers {
    match answer {
        Ok(size) => reply.value(size).and(0).bytes(bytes),
        Err(r) => reply.and(1).and(0).and(r.number()).bytes(bytes),
    }
}
