// What is counted: amendments that are made, refusals by number, and what differs from building afresh.
use common::refusal::Refusal;
use std::fmt;

#[derive(Clone, Copy)]
pub(crate) struct Tally {
    made: u64,
    refused: [u64; 10], // by number, from 1 on
    differ: u64,
}

impl Tally {
    pub(crate) fn new() -> Self {
        Tally {
            made: 0,
            refused: [0; 10],
            differ: 0,
        }
    }

    pub(crate) fn made(&mut self, same: bool) {
        self.made = self.made.saturating_add(1);
        self.judge(same);
    }

    // A refusal that is none of an amendment's differs.
    pub(crate) fn refused(&mut self, refusal: Refusal, untouched: bool) {
        if let Some(times) = self.refused.get_mut(refusal.number() as usize) {
            *times = times.saturating_add(1);
            self.judge(untouched);
        } else {
            self.judge(false);
        }
    }

    fn judge(&mut self, right: bool) {
        if !right {
            self.differ = self.differ.saturating_add(1);
        }
    }
}

impl fmt::Display for Tally {
    fn fmt<W: fmt::Write>(&self, f: &mut fmt::Formatter<W>) -> fmt::Result {
        write!(f, "{} made", self.made)?;
        for (number, times) in self.refused.iter().enumerate() {
            if *times > 0 {
                write!(f, ", refused by {number} {times}")?;
            }
        }
        write!(f, ", {} differ", self.differ)
    }
}
