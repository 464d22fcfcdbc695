// Section 9: what `spans` prints.
use common::refusal::Refusal;
use stored::numbers::Numbers;
use stored::parts::bytes_part;

// The room for a listing, more than any stored text has.
const ROOM: usize = 65536;

// A function makes it, since a proof takes the length of what a call answers from its type, and counts no zeros.
fn room() -> [u8; ROOM] {
    [0; ROOM]
}

pub(crate) fn ask(text: &[u8], reply: Numbers) -> Numbers {
    let mut room = room();
    let listed: &mut [u8] = &mut room;
    match listing::listing(text, listed) {
        Ok(n) => reply.and(1).bytes(bytes_part(&listed[..], 0, n)),
        Err(r) => reply.refused(r),
    }
}
