// The public call that reads a document. If it is lent too few words, it changes none; otherwise the words that it needs are zero after
// it, and words beyond them never change.
ghost use Rattle.std.specs.Prelude.{[]};
ghost use Rattle.grammar.specs.LimitSets.{size_limits};
ghost use Rattle.grammar.specs.Answers.{reading_numbers};
ghost use Rattle.grammar.specs.Calls.{after};
ghost use Rattle.grammar.specs.Promises.{DocumentReading};

use crate::documents::{DocumentIndex, read_document};
use basis::classes::classes_load;
use basis::limits::limits_of;
use basis::work::clear_work;
use grammar::{Format, Refusal, Size};

// Does a document read?
pub fn document_reads(
    size: Size,
    classes: &[u8],
    format: Format,
    document: &[u8],
    work: &mut [u32],
) -> Result<(), Refusal>
    ensures { DocumentReading (size_limits size) classes.now format document.now work.old
        (after (reading_numbers result) [] work.new) }
{
    let limits = limits_of(size);
    if work.len() < limits.words {
        return Err(Refusal::WorkTooShort);
    }
    clear_work(limits.words, work);
    if !classes_load(classes) {
        return Err(Refusal::BadClasses);
    }
    let mut index = DocumentIndex::new();
    read_document(limits, classes, format, document, &mut index)
}
