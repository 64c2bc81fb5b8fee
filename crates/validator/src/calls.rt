// The public calls that decide. A call that is lent too few words changes none; otherwise the words that it needs are zero after it, and
// words beyond them never change. So all three begin and end alike: they refuse too few words, and clear the words of the size. What
// they read and lend between differs, and these lines are plainer than a call that is given that part as a closure.
ghost use Rattle.std.specs.Prelude.{[]};
ghost use Rattle.grammar.specs.LimitSets.{size_limits};
ghost use Rattle.grammar.specs.Kinds.{local, single_type};
ghost use Rattle.grammar.specs.Answers.{verdict_numbers};
ghost use Rattle.grammar.specs.Calls.{after};
ghost use Rattle.grammar.specs.Promises.{Membership, KindTest};

use crate::deciding::{read_and_decide, read_and_test_local, read_and_test_single_type};
use basis::limits::limits_of;
use basis::work::clear_work;
use grammar::{Format, Refusal, Size};

// Does the table let in the document?
pub fn lets_in(
    size: Size,
    classes: &[u8],
    table: &[u8],
    format: Format,
    document: &[u8],
    work: &mut [u32],
) -> Result<bool, Refusal>
    ensures { Membership (size_limits size) classes.now table.now format document.now
        work.old (after (verdict_numbers result) [] work.new) }
{
    let limits = limits_of(size);
    if work.len() < limits.words {
        return Err(Refusal::WorkTooShort);
    }
    let answer = read_and_decide(
        limits,
        classes,
        table,
        format,
        document,
        &mut work[..limits.words],
    );
    clear_work(limits.words, work);
    answer
}

// Is the table local?
pub fn is_local(size: Size, classes: &[u8], table: &[u8], work: &mut [u32]) -> Result<bool, Refusal>
    ensures { KindTest (size_limits size) classes.now local table.now work.old
        (after (verdict_numbers result) [] work.new) }
{
    let limits = limits_of(size);
    if work.len() < limits.words {
        return Err(Refusal::WorkTooShort);
    }
    let answer = read_and_test_local(limits, classes, table);
    clear_work(limits.words, work);
    answer
}

// Is the table single-type?
pub fn is_single_type(
    size: Size,
    classes: &[u8],
    table: &[u8],
    work: &mut [u32],
) -> Result<bool, Refusal>
    ensures { KindTest (size_limits size) classes.now single_type table.now work.old
        (after (verdict_numbers result) [] work.new) }
{
    let limits = limits_of(size);
    if work.len() < limits.words {
        return Err(Refusal::WorkTooShort);
    }
    let answer = read_and_test_single_type(limits, classes, table, &mut work[..limits.words]);
    clear_work(limits.words, work);
    answer
}
