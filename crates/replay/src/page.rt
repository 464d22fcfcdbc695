// Section 0: what the page says by itself, here of refusals by leaves and scanners.
use crate::question;
use stored::numbers::Numbers;
use stored::parts::part;

// What ours answer; no number where that is no question of this section.
pub(crate) fn reply(letter: u8, numbers: &[u32]) -> Numbers {
    match letter {
        b'e' | b'c' | b'p' => refusal(1, letter, numbers),
        b'f' => refusal(2, b's', numbers),
        b'k' => refusal(3, b's', numbers),
        b'd' => refusal(4, b's', numbers),
        b'q' => refusal(5, b's', numbers),
        _ => Numbers::none(),
    }
}

// What a question of another section says of a refusal: its number and, from a scanner, the state; 0 where nothing is refused.
fn refusal(section: u32, letter: u8, numbers: &[u32]) -> Numbers {
    let reply = question::reply(section, letter, false, numbers);
    if reply.count == 0 {
        reply
    } else if reply.cut {
        Numbers::none().all(part(&reply.cells, 1, reply.count))
    } else {
        Numbers::none().and(0)
    }
}
