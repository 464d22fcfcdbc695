// Building by a lent run of fence rule records.
ghost use Rattle.std.specs.Prelude.{take};
ghost use Rattle.common.specs.Refusals.{told};
ghost use Rattle.rules.specs.Records.{rules_of};
ghost use Rattle.context.specs.Build.{Built};

use crate::build;
use common::grammar::Grammar;
use common::refusal::Refusal;
use rules::columns::InlineColumns;
use rules::records::{FenceRule, gather};
use search::lesser;

// Builds as `build` does on the columns of the rules' bytes and minimums, for every number of rules.
pub fn build_records(
    src: &[u8],
    g: Grammar,
    rules: &[FenceRule],
    inline: InlineColumns<u32>,
    out: &mut [u32],
) -> Result<usize, Refusal>
    ensures { Built g (rules_of (λ l. l) rules.now inline.entry) src.now out.old out.new
        (told result) }
{
    let kept = gather(rules);
    build(src, g, kept.columns(inline), out)
}

// Building by the first `used` of sixteen records, by all of them where it is more: for callers that hold no run of records.
pub fn build_few(
    src: &[u8],
    g: Grammar,
    rules: [FenceRule; 16],
    used: usize,
    inline: InlineColumns<u32>,
    out: &mut [u32],
) -> Result<usize, Refusal>
    ensures { Built g (rules_of (λ l. l) (take used rules) inline.entry) src.now out.old
        out.new (told result) }
{
    let n = lesser(used, 16);
    build_records(src, g, &rules[..n], inline, out)
}
