// A call's table made in a draft, so that a refusal leaves the output as it came, and handed over.
ghost use Rattle.std.specs.Prelude.{◌≤◌, ◌≡◌, length, Result};
ghost use Rattle.grammar.specs.Limits.{input_limit};
ghost use Rattle.grammar.specs.LimitSets.{limits_of};
ghost use Rattle.grammar.specs.Names.{Loads};
ghost use Rattle.grammar.specs.Table.{Table};
ghost use Rattle.grammar.specs.declared.Refusal.{Refusal};
ghost use Rattle.grammar.specs.declared.Source.TheVariants.{Table as a_table, Document as a_document};
ghost use Rattle.reader.specs.Held.{Held, SomeHeld};
ghost use Rattle.results.specs.PlanKind.{kind_of};
ghost use Rattle.drafting.specs.Drafting.{sample_of, sampled_from, widened_by, widened_from, InDraft, FitsDraft, HandedOver};

use basis::classes::classes_load;
use basis::limits::INPUT;
use documents::documents::{DocumentIndex, read_document};
use grammar::{Format, Refusal, SizeLimits, Source};
use reader::index::TableIndex;
use reader::tables::read_table;
use results::plan::Kind;
use sampling::sample::sample_table;
use steps::widen::widen_tables;

// Hands over what stands in the draft, if the output has room. What stands behind it in the output stays.
pub fn deliver(draft: &[u8], made: Result<usize, Refusal>, out: &mut [u8]) -> Result<usize, Refusal>
    requires { (length draft.now ≡ input_limit) × FitsDraft draft.now made }
    ensures { (o : Result Table Refusal) → InDraft o draft.now made → HandedOver o out.old out.new result }
{
    let n = made?;
    if out.len() < n {
        return Err(Refusal::OutputTooShort);
    }
    out[..n].copy_from_slice(&draft[..n]);
    Ok(n)
}

// Reads the addition and widens by it a table that was read.
fn read_and_widen(
    limits: SizeLimits,
    classes: &[u8],
    kind: Kind,
    old: &[u8],
    index: &TableIndex,
    addition: &[u8],
    words: &mut [u32],
    draft: &mut [u8],
) -> Result<usize, Refusal>
    requires loads { Loads classes.now }
    requires within { (SomeHeld (limits_of limits) old.now index.now) × (12288 ≤ length words.old)
        × (input_limit ≤ length draft.old) }
    ensures { (g : Table) → Held (limits_of limits) old.now index.now g
        → InDraft (widened_by (limits_of limits) classes.now a_table (kind_of kind) g addition.now)
        draft.new result }
{
    let mut added = TableIndex::new();
    read_table(limits, classes, addition, &mut added)?;
    widen_tables(limits, kind, old, index, addition, &added, words, draft)
}

// Reads a document and makes its sample in the draft.
fn read_and_sample(
    limits: SizeLimits,
    classes: &[u8],
    format: Format,
    document: &[u8],
    draft: &mut [u8],
) -> Result<usize, Refusal>
    requires loads { Loads classes.now }
    requires within { input_limit ≤ length draft.old }
    ensures { InDraft (sample_of (limits_of limits) classes.now format document.now) draft.new result }
{
    let mut index = DocumentIndex::new();
    read_document(limits, classes, format, document, &mut index)?;
    Ok(sample_table(limits, document, &index, draft)?)
}

// Widens by the sample of a document a table that was read.
fn widen_by_sample(
    limits: SizeLimits,
    classes: &[u8],
    kind: Kind,
    old: &[u8],
    index: &TableIndex,
    format: Format,
    document: &[u8],
    words: &mut [u32],
    draft: &mut [u8],
) -> Result<usize, Refusal>
    requires loads { Loads classes.now }
    requires within { (SomeHeld (limits_of limits) old.now index.now) × (12288 ≤ length words.old)
        × (input_limit ≤ length draft.old) }
    ensures { (g : Table) → Held (limits_of limits) old.now index.now g
        → InDraft (widened_by (limits_of limits) classes.now (a_document format) (kind_of kind) g document.now)
        draft.new result }
{
    let mut sample = [0u8; INPUT];
    let n = read_and_sample(limits, classes, format, document, &mut sample)?;
    read_and_widen(
        limits,
        classes,
        kind,
        old,
        index,
        &sample[0..n],
        words,
        draft,
    )
}

// Tries the classes, then reads a document and makes its sample in the draft.
pub fn draft_sample(
    limits: SizeLimits,
    classes: &[u8],
    format: Format,
    document: &[u8],
    draft: &mut [u8],
) -> Result<usize, Refusal>
    requires { input_limit ≤ length draft.old }
    ensures { InDraft (sampled_from (limits_of limits) classes.now format document.now) draft.new result }
{
    if !classes_load(classes) {
        return Err(Refusal::BadClasses);
    }
    read_and_sample(limits, classes, format, document, draft)
}

// Tries the classes, then reads the old table, then the addition of either sort, and makes the result in the draft.
pub fn draft_widened(
    limits: SizeLimits,
    classes: &[u8],
    kind: Kind,
    source: Source,
    old: &[u8],
    addition: &[u8],
    words: &mut [u32],
    draft: &mut [u8],
) -> Result<usize, Refusal>
    requires { (12288 ≤ length words.old) × (input_limit ≤ length draft.old) }
    ensures { InDraft (widened_from (limits_of limits) classes.now source (kind_of kind) old.now
        addition.now) draft.new result }
{
    if !classes_load(classes) {
        return Err(Refusal::BadClasses);
    }
    let mut index = TableIndex::new();
    read_table(limits, classes, old, &mut index)?;
    match source {
        Source::Table => read_and_widen(limits, classes, kind, old, &index, addition, words, draft),
        Source::Document(format) => widen_by_sample(
            limits, classes, kind, old, &index, format, addition, words, draft,
        ),
    }
}
