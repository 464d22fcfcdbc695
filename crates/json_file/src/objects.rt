// The objects of a file one after another, for both passes: so the step over a byte has one caller, into which a compiler folds it.
ghost use Rattle.std.specs.Prelude.{◌≤◌, length};
ghost use Rattle.json_file.specs.Walk.{Walks};

use crate::phase::{Move, Phase, step};

// What comes next in a file.
#[derive(Clone, Copy)]
pub enum NextObject {
    Region(u32, u32, usize), // an object's region, and the place behind it
    Bad(usize), // a byte that can't continue
    Over(Phase), // the file's end
}

// Goes on from a place and a phase to the end of an object, to a byte that can't continue, or to the file's end.
pub(crate) fn next_object(file: &[u8], from: usize, begin: Phase) -> NextObject
    requires { from ≤ length file.now }
    ensures { Walks file.now from begin result }
{
    let mut g = begin;
    let mut i = from;
    while i < file.len() {
        match step(g, file[i]) {
            Move::On(k) => {
                g = k;
                i += 1;
                continue;
            }
            Move::Shut(a, b) => {
                return NextObject::Region(a, b, i + 1);
            }
            Move::Bad => {
                return NextObject::Bad(i);
            }
        }
    }
    NextObject::Over(g)
}
