// Fence rules as records, or in two bytes each: gathered into columns.
ghost use Rattle.search.specs.Promise.{Gives};
ghost use Rattle.rules.specs.Records.{no_rules, OneMore, KeptColumns, AllGathered};
ghost use Rattle.rules.specs.ByteRules.{fence_rules_of};

use crate::columns::{InlineColumns, RuleColumns};
use find::is_one_of;
use search::{byte_at, lesser};

// A fence's byte, and the least length of its run.
#[repr(C)]
#[derive(Clone, Copy)]
pub struct FenceRule {
    pub byte: u8,
    pub min: u8,
}

// Fence rules as columns: the bytes and the minimums of the `count` first, each of which has another byte, and the index that each had in
// its run; and the index of the run's last rule, kept or not, 0 for none.
#[derive(Clone, Copy)]
pub struct Gathered {
    pub bytes: [u8; 256],
    pub mins: [u8; 256],
    pub places: [usize; 256],
    pub count: usize,
    pub last: usize,
}

impl Gathered {
    pub fn new() -> Self
        ensures { Gives no_rules result }
    {
        Gathered {
            bytes: [0u8; 256],
            mins: [0u8; 256],
            places: [0usize; 256],
            count: 0,
            last: 0,
        }
    }

    // One rule more, whose index is `row`. A rule whose byte came before is never used and isn't kept, so that 256 places are enough for
    // every run.
    pub fn with(self, rule: FenceRule, row: usize) -> Self
        ensures { OneMore self rule row result }
    {
        let b = rule.byte;
        let n = self.count;
        let mut more = self;
        more.last = row;
        if 256 <= n {
            return more;
        }
        let bytes = self.bytes;
        if is_one_of(&bytes, n, b) {
            return more;
        }
        more.bytes[n] = b;
        more.mins[n] = rule.min;
        more.places[n] = row;
        more.count = n + 1;
        more
    }

    // The rules kept, before inline rules.
    pub fn columns<'a, T>(&'a self, inline: InlineColumns<'a, T>) -> RuleColumns<'a, T>
        ensures { KeptColumns self.now inline.entry result }
    {
        let n = lesser(self.count, 256);
        RuleColumns {
            fences: &self.bytes[..n],
            mins: &self.mins[..n],
            inline,
        }
    }
}

// The whole run, gathered, each rule at its own index.
pub fn gather(rules: &[FenceRule]) -> Gathered
    ensures { AllGathered rules.now result }
{
    let mut all = Gathered::new();
    for (i, &rule) in rules.iter().enumerate() {
        all = all.with(rule, i);
    }
    all
}

// Fence rules of two bytes each, gathered, each at its own index.
pub fn gather_rules(rules: &[u8]) -> Gathered
    ensures { AllGathered (fence_rules_of rules.now) result }
{
    let mut all = Gathered::new();
    for i in 0..rules.len() / 2 {
        let rule = FenceRule {
            byte: byte_at(rules, i * 2),
            min: byte_at(rules, i * 2 + 1),
        };
        all = all.with(rule, i);
    }
    all
}
