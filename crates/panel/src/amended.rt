// The amendment of a list in bytes.
ghost use Rattle.amend.specs.Amended.{edit};
ghost use Rattle.amending.specs.Amending.{AmendedBytes};

use amending::amend_columns;

// The list of the text in which the bytes of `old` from the first cut up to the second are replaced by `text`, made from the list of the old text,
// whose first `count` regions it has, and from the replacement alone. A refusal (1 a text is too long, 6 columns differ, 4 cuts out of order, 1 the
// edited text is too long, 5 the list is misshapen, 9 a line end escapes or opens, 7 a cut is not at a joint, 8 the replacement is open at its end, 3
// too little room) changes nothing.
#[unsafe(no_mangle)]
pub extern "C" fn rack_amend(
    old: &[u8],
    list: &[u8],
    count: u32,
    first: usize,
    second: usize,
    text: &[u8],
    eol: u8,
    escape: u8,
    sep: u8,
    tab: u8,
    fences: &[u8],
    mins: &[u8],
    symmetric: &[u8],
    times: &[u8],
    openers: &[u8],
    closers: &[u8],
    counts: &[u8],
    out: &mut [u8],
    answer: &mut [u8],
) -> u32
    ensures { AmendedBytes (record { eol = eol; escape = escape; sep = sep; tab = tab })
        (record {
          fence_bytes = fences.now;
          fence_mins = mins.now;
          inline = record {
            sym_bytes = symmetric.now;
            sym_counts = times.now;
            openers = openers.now;
            closers = closers.now;
            open_counts = counts.now;
          };
        })
        old.now list.now count (edit first second text.now)
        (record { list = out.old; answer = answer.old })
        (record { list = out.new; answer = answer.new }) result }
{
    amend_columns(
        old,
        list,
        count as usize,
        first,
        second,
        text,
        eol,
        escape,
        sep,
        tab,
        fences,
        mins,
        symmetric,
        times,
        openers,
        closers,
        counts,
        out,
        answer,
    )
}
