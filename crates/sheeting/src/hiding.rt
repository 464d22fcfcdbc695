// The regions of a text as they come, to tell what they hide. The scan goes forward together with the places that are asked for, so that
// the text is passed once and no list of regions is kept.
ghost use Rattle.std.specs.Prelude.{[], ◌∷◌};
ghost use Rattle.search.specs.Promise.{Gives};
ghost use Rattle.cover.specs.Cursor.{covers};
ghost use Rattle.rules.specs.Tables.{gram_in};
ghost use Rattle.region.specs.MemoryLaws.{Sound};
ghost use Rattle.sheeting.specs.Hiding.{HidesFrom, PassedOn};

use region::next_region;
use rules::tables::Tables;

// The region that may hide the next place, and where the scan goes on after it. One that ends where it starts hides nothing.
#[derive(Clone, Copy)]
pub(crate) struct Hider {
    pub start: usize,
    pub stop: usize,
    pub next: usize,
}

// Moves on to the first region that ends after `place`. Where none is left the scan goes on from the text's end, so that what was
// searched once is not searched for the next place again.
pub(crate) fn pass(
    hider: Hider,
    place: usize,
    text: &[u8],
    tables: &Tables,
    dead: &mut [usize; 256],
) -> Hider
    requires sound { Sound (gram_in tables.now) text.now dead.old hider.next }
    requires hides_from { HidesFrom (gram_in tables.now) text.now place hider }
    ensures { PassedOn (gram_in tables.now) text.now dead.new place result }
{
    let mut h = hider;
    loop {
        if place < h.stop {
            return h;
        }
        match next_region(text, h.next, tables, dead) {
            Some((r, next)) => {
                h = Hider {
                    start: r.start,
                    stop: r.end,
                    next,
                };
            }
            None => {
                return Hider {
                    start: h.start,
                    stop: h.stop,
                    next: text.len(),
                };
            }
        }
    }
}

// Whether a region holds the place.
pub(crate) fn hides(h: Hider, place: usize) -> bool
    ensures { Gives (covers place (h.start ∷ h.stop ∷ [])) result }
{
    h.start <= place && place < h.stop
}
