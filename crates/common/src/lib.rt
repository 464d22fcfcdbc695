// What all scanners share: refusals and answers, the grammar bytes, spans, byte sets, and what both item scanners ask of a line.
#![tactic(auto)]

mod classes; // the table of the house classes
pub mod grammar; // the grammar bytes, and the house's
pub mod items; // what both item scanners ask of a line
pub mod list; // the layout of a region list
pub mod refusal; // refusals and answers
pub mod scan;
pub mod sets; // byte sets, the house classes, the probe
pub mod span; // spans, and the stretch of text that one names
pub mod turn; // what a scan does in turns
