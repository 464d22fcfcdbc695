// The state of the scanner of frames as a byte run: six cells, 32 for the open frames' starts, their count, 64 for the pending
// frames' starts and ends, their count and index.
ghost use Rattle.std.specs.Prelude.{◌≡◌, true};
ghost use Rattle.search.specs.Promise.{Gives};
ghost use Rattle.cells.specs.Bytes.{cells, readable};
ghost use Rattle.common.specs.Refusals.{span_values};
ghost use Rattle.panel.specs.ContState.{single, Spread, open_cells, pending_from, cont_limits, cont_cells, cont_from};

use cells::{cell, cells_fit};
use common::span::Span;
use cont::ContIter;
use search::byte_at;

// Whether a run has the state's cells, and none is over its limit.
pub(crate) fn cont_fits(run: &[u8]) -> bool
    ensures { Gives (readable cont_limits run.now) result }
{
    let mut limits = [4294967295u32; 105];
    limits[0] = 255;
    limits[1] = 255;
    limits[2] = 255;
    limits[3] = 255;
    cells_fit(run, &limits)
}

// Lays the starts of the open frames from cell 6 on.
fn lay_open(before: [usize; 105], open: [u32; 32]) -> [usize; 105]
    ensures { Spread single 6 «open» before result }
{
    let mut all = before;
    let mut i = 0;
    while i < 32 {
        all[i + 6] = open[i] as usize;
        i += 1;
    }
    all
}

// Lays the pending frames from cell 39 on.
fn lay_pending(before: [usize; 105], pending: [Span; 32]) -> [usize; 105]
    ensures { Spread span_values 39 pending before result }
{
    let mut all = before;
    let mut i = 0;
    while i < 32 {
        let span = pending[i];
        all[i * 2 + 39] = span.start as usize;
        all[i * 2 + 40] = span.end as usize;
        i += 1;
    }
    all
}

// The cells of a state.
pub(crate) fn cont_cells(g: ContIter) -> [usize; 105]
    ensures { Gives (cont_cells g) result }
{
    let open = g.open;
    let pending = g.pending;
    let mut all = [0usize; 105];
    all[0] = g.byte as usize;
    all[1] = g.eol as usize;
    all[2] = g.sep as usize;
    all[3] = g.tab as usize;
    all[4] = g.cap;
    all[5] = g.pos;
    all = lay_open(all, open);
    all[38] = g.open_len;
    all = lay_pending(all, pending);
    all[103] = g.pending_len;
    all[104] = g.pending_idx;
    all
}

// The open frames' starts, from cell 6 on.
fn read_open(run: &[u8]) -> [u32; 32]
    ensures { Gives (open_cells (cells run.now)) result }
{
    let mut open = [0u32; 32];
    let mut i = 0;
    while i < 32 {
        open[i] = cell(run, i + 6);
        i += 1;
    }
    open
}

// The pending frames, from cell 39 on.
fn read_pending(run: &[u8]) -> [Span; 32]
    ensures { Gives (pending_from (cells run.now)) result }
{
    let mut pending = [Span { start: 0, end: 0 }; 32];
    let mut i = 0;
    while i < 32 {
        pending[i] = Span {
            start: cell(run, i * 2 + 39),
            end: cell(run, i * 2 + 40),
        };
        i += 1;
    }
    pending
}

// The state that cells within their limits make.
pub(crate) fn read_cont(run: &[u8]) -> ContIter
    requires { readable cont_limits run.now ≡ true }
    ensures { Gives (cont_from (cells run.now)) result }
{
    let open = read_open(run);
    let pending = read_pending(run);
    ContIter {
        byte: byte_at(run, 0),
        eol: byte_at(run, 4),
        sep: byte_at(run, 8),
        tab: byte_at(run, 12),
        cap: cell(run, 4) as usize,
        pos: cell(run, 5) as usize,
        open,
        open_len: cell(run, 38) as usize,
        pending,
        pending_len: cell(run, 103) as usize,
        pending_idx: cell(run, 104) as usize,
    }
}
