// The public call that prints. A call that is lent too few words changes none; otherwise the words that it needs are zero after it, and
// words beyond them never change.
ghost use Rattle.std.specs.Prelude.{◌≤◌};
ghost use Rattle.grammar.specs.LimitSets.{limits_of, size_limits};
ghost use Rattle.grammar.specs.Names.{Loads};
ghost use Rattle.grammar.specs.Answers.{written_numbers};
ghost use Rattle.grammar.specs.Calls.{after};
ghost use Rattle.grammar.specs.Promises.{Paging};
ghost use Rattle.pages.specs.MostBytes.{most_bytes};
ghost use Rattle.pages.specs.Printing.{pages_from, Leaves};

use crate::sheets::put_pages;
use basis::classes::classes_load;
use basis::limits::limits_of;
use basis::work::clear_work;
use grammar::{Refusal, Size, SizeLimits};
use reader::index::TableIndex;
use reader::tables::read_table;

// Reads a table under classes that load, and writes its pages.
fn read_and_print(
    limits: SizeLimits,
    classes: &[u8],
    table: &[u8],
    out: &mut [u8],
) -> Result<usize, Refusal>
    requires { Loads classes.now }
    ensures { Leaves (pages_from (limits_of limits) classes.now table.now out.old)
        out.old out.new result }
{
    let mut index = TableIndex::new();
    read_table(limits, classes, table, &mut index)?;
    put_pages(table, &index, out)
}

// The rules of a table as printed pages.
pub fn pages(
    size: Size,
    classes: &[u8],
    table: &[u8],
    out: &mut [u8],
    work: &mut [u32],
) -> Result<usize, Refusal>
    ensures paging { Paging (size_limits size) classes.now table.now out.old work.old
        (after (written_numbers result) out.new work.new) }
    ensures most { (written_numbers result).value ≤ most_bytes size }
{
    let limits = limits_of(size);
    if work.len() < limits.words {
        return Err(Refusal::WorkTooShort);
    }
    clear_work(limits.words, work);
    if !classes_load(classes) {
        return Err(Refusal::BadClasses);
    }
    read_and_print(limits, classes, table, out)
}
