// What is printed: the lines that differ, and one line for each section. Where a line can't be printed the next is tried.
use search::next_line;
use std::io::Print;
use stored::numbers::Numbers;
use stored::parts::part;
use stored::tally::{NO_SECTION, Tally};

// How many differing lines of a section are told; all are counted.
const MOST_TOLD: u64 = 20;

// A line that differs, and what was found: nothing where it is no question of its section, or broken off.
pub(crate) fn told(rt: &impl Print, before: Tally, after: Tally, reply: Numbers) {
    if after.differ == before.differ || before.differ >= MOST_TOLD {
        return;
    }
    let _ = print!(rt; "line {}: found", after.line);
    for number in part(&reply.cells, 0, reply.count) {
        let _ = print!(rt; " {number}");
    }
    let _ = println!(rt; "");
}

// What was counted in a section.
pub(crate) fn summary(rt: &impl Print, text: &[u8], tally: Tally) {
    if tally.section == NO_SECTION {
        return;
    }
    let _ = rt.write_all(name(text, tally.head));
    let _ = println!(rt;
        ": {} answers in full, {} blocks of {} answers, {} differ",
        tally.full, tally.blocks, tally.inside, tally.differ
    );
}

// The name of the section whose head begins at `head`. It stands behind the sign and the number.
fn name(text: &[u8], head: usize) -> &[u8] {
    let number = next_line(text.len(), find::find_byte(text, head, b' '));
    let name = next_line(text.len(), find::find_byte(text, number, b' '));
    part(text, name, find::find_byte(text, name, b'\n'))
}
