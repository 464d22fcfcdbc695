// An item as a turn finds it, and as five numbers of a list.
ghost use Rattle.std.specs.Prelude.{◌+◌, ◌*◌, ◌≤◌, length};
ghost use Rattle.common.specs.Lists.{RowPut};
ghost use Rattle.sheet.specs.Sheet.{five};

use feed::item::SheetItem;

// The next item as a turn finds it: one that is shown, one that a region hides, or none.
#[derive(Clone, Copy)]
pub enum Seen {
    Shown(SheetItem),
    Hidden,
    End,
}

// Writes item `n` to its five places, and answers the next item's number.
pub(crate) fn put_item(out: &mut [u32], n: usize, item: SheetItem) -> usize
    requires { n * 5 + 5 ≤ length out.old }
    ensures { RowPut (five item) n out.old out.new result }
{
    let k = n * 5;
    out[k] = item.start;
    out[k + 1] = item.end;
    out[k + 2] = item.kind;
    out[k + 3] = item.byte as u32;
    out[k + 4] = item.number;
    n + 1
}
