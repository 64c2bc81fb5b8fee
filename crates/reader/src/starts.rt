// Starts of a table: one type byte each, before all rules.
ghost use Rattle.std.specs.Prelude.{◌≡◌};
ghost use Rattle.grammar.specs.Lists.{is_in};
ghost use Rattle.grammar.specs.LimitSets.{limits_of};
ghost use Rattle.grammar.specs.Table.{Table};
ghost use Rattle.grammar.specs.ReadTable.{read_start};
ghost use Rattle.reader.specs.TableIndex.{part, ValueAt, Indexes, TableIndexed, AnswersFor, ReadsFor};

use crate::index::TableIndex;
use grammar::{Refusal, SizeLimits};

// The type is an earlier start.
fn repeated_start(s: &[u8], ty: usize, index: &TableIndex) -> bool
    requires { TableIndexed s.now index.now }
    ensures { (g : Table) → Indexes s.now index.now g → result ≡ is_in ty g.starts }
{
    for i in 0..index.start_count() {
        if index.start_type(i) == ty {
            return true;
        }
    }
    false
}

// Why a start is turned back, if it is.
fn start_answer(
    limits: SizeLimits,
    s: &[u8],
    from: usize,
    to: usize,
    index: &TableIndex,
) -> Result<(), Refusal>
    requires { ValueAt s.now from to index.now }
    ensures { AnswersFor s.now index.now
        (λ g. read_start (limits_of limits) g (part s.now from to)) result }
{
    if to - from != 1 {
        return Err(Refusal::BadField);
    }
    if index.rule_count() != 0 {
        return Err(Refusal::BadField);
    }
    let ty = usize::from(s[from]);
    if repeated_start(s, ty, index) {
        return Err(Refusal::Repeated);
    }
    if limits.rules <= index.start_count() {
        return Err(Refusal::TooMany);
    }
    if limits.rules <= ty {
        return Err(Refusal::OutOfRange);
    }
    Ok(())
}

// Reads a start into the index.
pub fn after_start(
    limits: SizeLimits,
    s: &[u8],
    from: usize,
    to: usize,
    index: &mut TableIndex,
) -> Result<(), Refusal>
    requires value_at { ValueAt s.now from to index.old }
    ensures { ReadsFor s.now index.old (λ g. read_start (limits_of limits) g (part s.now from to)) result
        index.new }
{
    start_answer(limits, s, from, to, index)?;
    index.add_start(s[from]);
    Ok(())
}
