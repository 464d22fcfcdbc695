// Section 6: regions, and the bytes that are searched for.
use crate::lists;
use common::grammar::Grammar;
use common::refusal::Refusal;
use lines::fence_tests::fence_table;
use region::{Cause, Region, next_region};
use rules::columns::{InlineColumns, RuleColumns};
use rules::records::FenceRule;
use rules::rows::{lay_rules, no_rows};
use rules::search_bytes::{Alphabet, search_bytes};
use rules::tables::Tables;
use search::byte_at;
use std::array;
use stored::answers::STEPS;
use stored::asked::Asked;
use stored::numbers::Numbers;

// All regions as they are built, by columns or by records; or as steps give them with what made them; a list built into so many
// cells; or the bytes that are searched for.
pub(crate) fn ask(asked: Asked<'_>, reply: Numbers) -> Numbers {
    match asked.letter() {
        b'r' | b'd' => built(asked, reply),
        b'c' => {
            let size = asked.number(0) as usize;
            lists::into_cells(size, reply, |list| build(asked, grammar_of(asked, 1), list))
        }
        b'n' => stepped(asked, reply),
        _ => searched(asked, reply),
    }
}

// The grammar whose bytes begin at place `i`.
fn grammar_of(asked: Asked<'_>, i: usize) -> Grammar {
    if i > 1 {
        return Grammar::house();
    }
    Grammar {
        eol: asked.byte(i),
        escape: asked.byte(i + 1),
        sep: asked.byte(i + 2),
        tab: asked.byte(i + 3),
    }
}

fn built(asked: Asked<'_>, reply: Numbers) -> Numbers {
    let mut space = [0u32; lists::ROOM];
    let list: &mut [u32] = &mut space;
    let answer = build(asked, grammar_of(asked, 0), list);
    lists::entries(answer, &list[..], 2, reply)
}

fn build(asked: Asked<'_>, g: Grammar, list: &mut [u32]) -> Result<usize, Refusal> {
    if asked.letter() == b'd' {
        return build_recorded(asked, g, list);
    }
    context::build(asked.text, g, rules_of(asked), list)
}

fn build_recorded(asked: Asked<'_>, g: Grammar, list: &mut [u32]) -> Result<usize, Refusal> {
    let fences = asked.bytes(0);
    context::records::build_few(
        asked.text,
        g,
        records_of(fences, asked.bytes(1)),
        fences.len(),
        inline_of(asked),
        list,
    )
}

// The columns of all rules; of the inline rules.
fn rules_of(asked: Asked<'_>) -> RuleColumns<'_, u32> {
    RuleColumns {
        fences: asked.bytes(0),
        mins: asked.bytes(1),
        inline: inline_of(asked),
    }
}

fn inline_of(asked: Asked<'_>) -> InlineColumns<'_, u32> {
    InlineColumns {
        symmetric: asked.bytes(2),
        times: asked.list(3),
        openers: asked.bytes(4),
        closers: asked.bytes(5),
        counts: asked.list(6),
    }
}

// The fence rules as records.
fn records_of(bytes: &[u8], mins: &[u8]) -> [FenceRule; 16] {
    array::from_fn(|i| FenceRule {
        byte: byte_at(bytes, i),
        min: byte_at(mins, i),
    })
}

fn searched(asked: Asked<'_>, reply: Numbers) -> Numbers {
    let searched = search_bytes(asked.bytes(0), asked.bytes(2), asked.bytes(4));
    reply.value(searched.count).bytes(&searched.bytes)
}

// The rules by byte that a step takes, and all steps from place 0 on.
fn stepped(asked: Asked<'_>, reply: Numbers) -> Numbers {
    // Put together as in `context`, with no copy of the rows for each of many short texts.
    let rules = rules_of(asked);
    let mut tables = Tables {
        alphabet: Alphabet::of(grammar_of(asked, 0), rules),
        fences: fence_table(rules.fences, rules.mins),
        rows: no_rows(),
    };
    lay_rules(&mut tables.rows, rules);
    run(asked.text, &tables, reply.entries())
}

fn run(text: &[u8], tables: &Tables, begun: Numbers) -> Numbers {
    let mut dead = [0usize; 256];
    let mut from = 0;
    let mut reply = begun;
    for steps in 0..STEPS {
        let next = next_region(text, from, tables, &mut dead);
        let Some((r, after)) = next else {
            return reply.counted(steps);
        };
        reply = region(r, reply);
        from = after;
    }
    reply.counted(STEPS)
}

// Start and end, the kind of the rule and its index, and whether a line closed it.
fn region(r: Region, reply: Numbers) -> Numbers {
    reply
        .size(r.start)
        .size(r.end)
        .and(kind_of(r.cause))
        .size(r.index)
        .flag(r.closed)
}

fn kind_of(cause: Cause) -> u32 {
    match cause {
        Cause::Fence => 0,
        Cause::Symmetric => 1,
        Cause::Asymmetric => 2,
    }
}
