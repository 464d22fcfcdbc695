// The layout of a region list: a run of numbers, a row for each region.

// How many numbers a region's row has.
pub const WIDE: usize = 2;

// The column of a region's start.
pub const START: usize = 0;

// The column of its exclusive end.
pub const END: usize = 1;
