// Each scanner's `new` and its step. A state is a lent run of cells of four bytes, one for each field in the order of the fields,
// arrays cell by cell. `new` writes it; a step reads it, and on success alone writes the next state over it.
ghost use Rattle.common.specs.Sets.{set_of};
ghost use Rattle.fence.specs.Fence.{fresh as freshFence};
ghost use Rattle.block_marker.specs.Marker.{fresh as freshMarker};
ghost use Rattle.block_numbered.specs.Numbered.{fresh as freshNumbered};
ghost use Rattle.cont.specs.Cont.{fresh as freshCont};
ghost use Rattle.panel.specs.ContState.{cont_cells, cont_stepper};
ghost use Rattle.panel.specs.State.{Made, Stepped, fence_cells, fence_stepper, marker_cells, marker_stepper, numbered_cells, numbered_stepper};

use crate::{cont_state, states};
use block_marker::BlockMarkerIter;
use block_numbered::BlockNumberedIter;
use cells::cells_fit;
use common::sets::byte_set;
use common::span::MAX_INPUT_LEN;
use cont::ContIter;
use fence::FenceIter;

// A fresh fence scanner: six cells.
#[unsafe(no_mangle)]
pub extern "C" fn rack_fence_new(
    byte: u8,
    min: u8,
    eol: u8,
    sep: u8,
    tab: u8,
    state: &mut [u8],
) -> u32
    ensures { Made (fence_cells (freshFence byte min eol sep tab)) state.old state.new result }
{
    let all = states::fence_cells(FenceIter::new(byte, min, eol, sep, tab));
    states::made(&all, state)
}

// The next fence: its start and end, or no value.
#[unsafe(no_mangle)]
pub extern "C" fn rack_fence_step(text: &[u8], state: &mut [u8], answer: &mut [u8]) -> u32
    ensures { Stepped fence_stepper text.now
        (record { state = state.old; answer = answer.old })
        (record { state = state.new; answer = answer.new }) result }
{
    if text.len() > MAX_INPUT_LEN {
        return 1;
    }
    let limits = [255u32, 255, 255, 255, 255, 4294967295];
    if cells_fit(state, &limits) {
        let step = states::read_fence(state).next(text);
        let found = step.found;
        let next = step.next;
        let all = states::fence_cells(next);
        return states::moved_span(found, &all, state, answer);
    }
    2
}

// A fresh marker scanner: nine cells.
#[unsafe(no_mangle)]
pub extern "C" fn rack_marker_new(
    eol: u8,
    sep: u8,
    tab: u8,
    accepted: &[u8],
    state: &mut [u8],
) -> u32
    ensures { Made (marker_cells (freshMarker eol sep tab (set_of accepted.now))) state.old state.new result }
{
    let set = byte_set(accepted);
    let all = states::marker_cells(BlockMarkerIter::new(eol, sep, tab, &set));
    states::made(&all, state)
}

// The next marker item: its content's start and end, and the marker byte; or no value.
#[unsafe(no_mangle)]
pub extern "C" fn rack_marker_step(
    text: &[u8],
    accepted: &[u8],
    state: &mut [u8],
    answer: &mut [u8],
) -> u32
    ensures { Stepped (marker_stepper (set_of accepted.now)) text.now
        (record { state = state.old; answer = answer.old })
        (record { state = state.new; answer = answer.new }) result }
{
    if text.len() > MAX_INPUT_LEN {
        return 1;
    }
    let limits = [255u32, 255, 255, 4294967295, 255, 255, 255, 4294967295, 1];
    if cells_fit(state, &limits) {
        let set = byte_set(accepted);
        let step = states::read_marker(state).next(text, &set);
        let found = step.found;
        let next = step.next;
        let all = states::marker_cells(next);
        return states::moved_marker(found, &all, state, answer);
    }
    2
}

// A fresh numbered scanner: nine cells.
#[unsafe(no_mangle)]
pub extern "C" fn rack_numbered_new(
    eol: u8,
    sep: u8,
    tab: u8,
    accepted: &[u8],
    state: &mut [u8],
) -> u32
    ensures { Made (numbered_cells (freshNumbered eol sep tab (set_of accepted.now))) state.old state.new
        result }
{
    let set = byte_set(accepted);
    let all = states::numbered_cells(BlockNumberedIter::new(eol, sep, tab, &set));
    states::made(&all, state)
}

// The next numbered item: its content's start and end, the delimiter byte and the number; or no value.
#[unsafe(no_mangle)]
pub extern "C" fn rack_numbered_step(
    text: &[u8],
    accepted: &[u8],
    state: &mut [u8],
    answer: &mut [u8],
) -> u32
    ensures { Stepped (numbered_stepper (set_of accepted.now)) text.now
        (record { state = state.old; answer = answer.old })
        (record { state = state.new; answer = answer.new }) result }
{
    if text.len() > MAX_INPUT_LEN {
        return 1;
    }
    let limits = [255u32, 255, 255, 4294967295, 255, 255, 255, 4294967295, 1];
    if cells_fit(state, &limits) {
        let set = byte_set(accepted);
        let step = states::read_numbered(state).next(text, &set);
        let found = step.found;
        let next = step.next;
        let all = states::numbered_cells(next);
        return states::moved_numbered(found, &all, state, answer);
    }
    2
}

// A fresh scanner of frames: 105 cells.
#[unsafe(no_mangle)]
pub extern "C" fn rack_cont_new(
    byte: u8,
    eol: u8,
    sep: u8,
    tab: u8,
    nest: usize,
    state: &mut [u8],
) -> u32
    ensures { Made (cont_cells (freshCont byte eol sep tab nest)) state.old state.new result }
{
    let all = cont_state::cont_cells(ContIter::new(byte, eol, sep, tab, nest));
    states::made(&all, state)
}

// The next frame: its start and end, or no value.
#[unsafe(no_mangle)]
pub extern "C" fn rack_cont_step(text: &[u8], state: &mut [u8], answer: &mut [u8]) -> u32
    ensures { Stepped cont_stepper text.now
        (record { state = state.old; answer = answer.old })
        (record { state = state.new; answer = answer.new }) result }
{
    if text.len() > MAX_INPUT_LEN {
        return 1;
    }
    if cont_state::cont_fits(state) {
        let step = cont_state::read_cont(state).next(text);
        let found = step.found;
        let next = step.next;
        let all = cont_state::cont_cells(next);
        return states::moved_span(found, &all, state, answer);
    }
    2
}
