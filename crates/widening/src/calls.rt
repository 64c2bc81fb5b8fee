// The public calls that write a table. A call that is lent too few words changes none; otherwise the words that it needs are zero after
// it, and words beyond them never change.
ghost use Rattle.grammar.specs.LimitSets.{size_limits};
ghost use Rattle.grammar.specs.Answers.{written_numbers};
ghost use Rattle.grammar.specs.Calls.{after};
ghost use Rattle.grammar.specs.Promises.{Sampling, Widening};
ghost use Rattle.results.specs.PlanKind.{kind_of};

use basis::limits::{INPUT, limits_of};
use basis::work::clear_work;
use drafting::drafting::{deliver, draft_sample, draft_widened};
use grammar::{Format, Refusal, Size, Source};
use results::plan::Kind;

// The sample of a document, as a table.
pub fn sample(
    size: Size,
    classes: &[u8],
    format: Format,
    document: &[u8],
    out: &mut [u8],
    work: &mut [u32],
) -> Result<usize, Refusal>
    ensures { Sampling (size_limits size) classes.now format document.now out.old work.old
        (after (written_numbers result) out.new work.new) }
{
    let limits = limits_of(size);
    if work.len() < limits.words {
        return Err(Refusal::WorkTooShort);
    }
    let mut draft = [0u8; INPUT];
    let made = draft_sample(limits, classes, format, document, &mut draft);
    clear_work(limits.words, work);
    deliver(&draft, made, out)
}

// The least table of a kind that lets in all that the old table lets in, and the addition of either sort: all that a table lets in, or a
// document.
pub fn widen(
    size: Size,
    classes: &[u8],
    kind: Kind,
    source: Source,
    old: &[u8],
    addition: &[u8],
    out: &mut [u8],
    work: &mut [u32],
) -> Result<usize, Refusal>
    ensures { Widening (size_limits size) classes.now (kind_of kind) source old.now addition.now
        out.old work.old (after (written_numbers result) out.new work.new) }
{
    let limits = limits_of(size);
    let words = limits.words;
    if work.len() < words {
        return Err(Refusal::WorkTooShort);
    }
    let mut draft = [0u8; INPUT];
    let made = draft_widened(
        limits,
        classes,
        kind,
        source,
        old,
        addition,
        &mut work[0..words],
        &mut draft,
    );
    clear_work(limits.words, work);
    deliver(&draft, made, out)
}
