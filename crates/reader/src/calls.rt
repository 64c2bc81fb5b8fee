// The public calls that read a table. A call that is lent too few words changes none; otherwise the words that it needs are zero after
// it, and words beyond them never change.
ghost use Rattle.std.specs.Prelude.{[]};
ghost use Rattle.grammar.specs.LimitSets.{size_limits};
ghost use Rattle.grammar.specs.Answers.{reading_numbers};
ghost use Rattle.grammar.specs.Calls.{after, label_name};
ghost use Rattle.grammar.specs.Promises.{TableReading, Naming, PartOf};

use crate::index::TableIndex;
use crate::label_places::find_label;
use crate::tables::read_table;
use basis::classes::classes_load;
use basis::limits::limits_of;
use basis::refusals::number_of;
use basis::work::clear_work;
use grammar::{Refusal, Size};

// Does a table read?
pub fn table_reads(
    size: Size,
    classes: &[u8],
    table: &[u8],
    work: &mut [u32],
) -> Result<(), Refusal>
    ensures { TableReading (size_limits size) classes.now table.now work.old
        (after (reading_numbers result) [] work.new) }
{
    let limits = limits_of(size);
    if work.len() < limits.words {
        return Err(Refusal::WorkTooShort);
    }
    clear_work(limits.words, work);
    if !classes_load(classes) {
        return Err(Refusal::BadClasses);
    }
    let mut index = TableIndex::new();
    read_table(limits, classes, table, &mut index)
}

// The name of a label, as a part of its table's own bytes; an empty part on a refusal, whose number is left behind `number`, else 0.
pub fn label_name<'a>(
    size: Size,
    classes: &[u8],
    table: &'a [u8],
    label: usize,
    work: &mut [u32],
    number: &mut u32,
) -> &'a [u8]
    ensures naming { Naming (size_limits size) classes.now table.now label work.old
        (after (record { bytes = result.now; refusal = number.new }) [] work.new) }
    ensures part_of { PartOf table.entry.ref_ptr
        (label_name (size_limits size) classes.now table.now label work.old) result.ref_ptr }
{
    let limits = limits_of(size);
    if work.len() < limits.words {
        *number = 1;
        return &table[0..0];
    }
    let found = find_label(limits, classes, table, label);
    clear_work(limits.words, work);
    match found {
        Err(r) => {
            *number = number_of(r);
            &table[0..0]
        }
        Ok((from, to)) => {
            *number = 0;
            &table[from..to]
        }
    }
}
