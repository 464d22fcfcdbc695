// The items of a work sheet, from both scanners.
ghost use Rattle.std.specs.Prelude.{◌≡◌};
ghost use Rattle.search.specs.Promise.{Gives};
ghost use Rattle.feed.specs.Items.{marked, counted, tested_place};
ghost use Rattle.feed.specs.declared.item.SheetItem.{SheetItem};

use block_marker::{Marker, MarkerItem};
use block_numbered::{Numbered, NumberedItem};
use common::scan::ItemKind;

// Where the content starts and ends, the kind (0 marker, 1 numbered), the accepted byte, and the number (0 for a marker).
#[derive(Clone, Copy)]
pub struct SheetItem {
    pub start: u32,
    pub end: u32,
    pub kind: u32,
    pub byte: u8,
    pub number: u32,
}

// A kind of items that a sheet has.
pub trait SheetKind: ItemKind {
    ghost shown: { Self.Item → SheetItem };

    // The sheet's item.
    fn shown(item: Self::Item) -> SheetItem
        ensures { result ≡ shown item };
}

impl SheetKind for Marker {
    ghost shown = { marked };

    fn shown(i: MarkerItem) -> SheetItem {
        SheetItem {
            start: i.span.start,
            end: i.span.end,
            kind: 0,
            byte: i.marker,
            number: 0,
        }
    }
}

impl SheetKind for Numbered {
    ghost shown = { counted };

    fn shown(i: NumberedItem) -> SheetItem {
        SheetItem {
            start: i.span.start,
            end: i.span.end,
            kind: 1,
            byte: i.delimiter,
            number: i.number,
        }
    }
}

// Where a region hides the item, whatever else of the item it holds: its marker or delimiter, which one blank parts from the content. The
// scanners' items start at 2 or later; a handmade one that starts before is tested at place 0.
pub fn tested_place(item: SheetItem) -> usize
    ensures { Gives (tested_place item) result }
{
    if item.start < 2 {
        return 0;
    }
    (item.start - 2) as usize
}
