// Reading the inputs of a call, and deciding. The three begin alike: one function for them would take the test as a closure, with a
// contract over all that a test may ask of an index and of words.
ghost use Rattle.std.specs.Prelude.{◌≡◌, ◌≤◌, length};
ghost use Rattle.grammar.specs.LimitSets.{limits_of};
ghost use Rattle.grammar.specs.Kinds.{local, single_type};
ghost use Rattle.grammar.specs.Answers.{verdict};
ghost use Rattle.validator.specs.Deciding.{lets_in_of, is_of_kind_of};

use basis::classes::classes_load;
use documents::documents::{DocumentIndex, read_document};
use grammar::{Format, Refusal, SizeLimits};
use kinds::kinds::{local_table, single_type_table};
use node_types::membership::lets_in_read;
use reader::index::TableIndex;
use reader::tables::read_table;

// Loads the classes, reads the table, then the document, then decides.
pub fn read_and_decide(
    limits: SizeLimits,
    classes: &[u8],
    table: &[u8],
    format: Format,
    document: &[u8],
    words: &mut [u32],
) -> Result<bool, Refusal>
    requires in_bounds { 8192 ≤ length words.old }
    ensures { result ≡ verdict (lets_in_of (limits_of limits) classes.now table.now format
        document.now) }
{
    if !classes_load(classes) {
        return Err(Refusal::BadClasses);
    }
    let mut index = TableIndex::new();
    read_table(limits, classes, table, &mut index)?;
    let mut nodes = DocumentIndex::new();
    read_document(limits, classes, format, document, &mut nodes)?;
    let yes = lets_in_read(
        table,
        &index,
        document,
        &nodes.names,
        &nodes.sizes,
        &nodes.shapes,
        nodes.nodes,
        words,
    );
    Ok(yes)
}

// Loads the classes, reads the table, then decides whether it is local.
pub fn read_and_test_local(
    limits: SizeLimits,
    classes: &[u8],
    table: &[u8],
) -> Result<bool, Refusal>
    ensures { result ≡ verdict (is_of_kind_of (limits_of limits) classes.now local table.now) }
{
    if !classes_load(classes) {
        return Err(Refusal::BadClasses);
    }
    let mut index = TableIndex::new();
    read_table(limits, classes, table, &mut index)?;
    Ok(local_table(&index))
}

// Loads the classes, reads the table, then decides whether it is single-type, with its set of types in the first eight words.
pub fn read_and_test_single_type(
    limits: SizeLimits,
    classes: &[u8],
    table: &[u8],
    words: &mut [u32],
) -> Result<bool, Refusal>
    requires in_bounds { 8 ≤ length words.old }
    ensures { result ≡ verdict (is_of_kind_of (limits_of limits) classes.now single_type table.now) }
{
    if !classes_load(classes) {
        return Err(Refusal::BadClasses);
    }
    let mut index = TableIndex::new();
    read_table(limits, classes, table, &mut index)?;
    let single = single_type_table(table, &index, &mut words[..8]);
    Ok(single)
}
