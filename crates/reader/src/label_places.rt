// Where a label's name stands in its table.
ghost use Rattle.std.specs.Prelude.{◌≡◌, ◌<◌, ◌≤◌};
ghost use Rattle.grammar.specs.Limits.{large};
ghost use Rattle.grammar.specs.LimitSets.{limits_of};
ghost use Rattle.reader.specs.LabelPlaces.{LabelSought, label_part, name_begins};
ghost use Rattle.reader.specs.Held.{SomeHeld};
ghost use Rattle.reader.specs.TableIndex.{label_count};

use crate::index::TableIndex;
use crate::tables::read_table;
use basis::classes::classes_load;
use grammar::{Refusal, SizeLimits};

// A name begins behind the fields of the labels before it, and its own tag and length.
fn name_begins(table: &[u8], index: &TableIndex, label: usize) -> usize
    requires some_held { SomeHeld large table.now index.now }
    requires label_bound { label < label_count index.now }
    ensures value { (f : SomeHeld large table.now index.now)
        → result ≡ name_begins f.table.labels label }
    ensures upper_bound { result ≤ 8451 }
{
    let mut begins: usize = 3;
    for i in 0..label {
        begins += 3 + (index.label_to(i) - index.label_from(i));
    }
    begins
}

// Where the name of a label begins and ends in its table.
pub fn find_label(
    limits: SizeLimits,
    classes: &[u8],
    table: &[u8],
    label: usize,
) -> Result<(usize, usize), Refusal>
    ensures { LabelSought table.now
        (label_part (limits_of limits) classes.now table.now label) result }
{
    if !classes_load(classes) {
        return Err(Refusal::BadClasses);
    }
    let mut index = TableIndex::new();
    read_table(limits, classes, table, &mut index)?;
    if index.label_count() <= label {
        return Err(Refusal::OutOfRange);
    }
    let from = name_begins(table, &index, label);
    Ok((
        from,
        from + (index.label_to(label) - index.label_from(label)),
    ))
}
