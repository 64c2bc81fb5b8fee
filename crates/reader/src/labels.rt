// Labels of a table: names of 1 to 63 bytes, before all starts and rules.
ghost use Rattle.std.specs.Prelude.{List, ◌≡◌, ◌≤◌, length};
ghost use Rattle.grammar.specs.Lists.{any_pass, place};
ghost use Rattle.grammar.specs.Names.{Name, same_name};
ghost use Rattle.grammar.specs.LimitSets.{limits_of};
ghost use Rattle.grammar.specs.Table.{Table};
ghost use Rattle.grammar.specs.ReadTable.{read_label};
ghost use Rattle.reader.specs.NamePlaces.{NamesAt, NamesStand};
ghost use Rattle.reader.specs.TableIndex.{part, ValueAt, Indexes, AnswersFor, ReadsFor};

use crate::index::TableIndex;
use basis::limits::NAME;
use basis::names::{is_name, same_name};
use grammar::{Refusal, SizeLimits};

// The place of a name among names that stand in bytes; their number where it is not there. `places` begins as an index does: it has
// where each name begins, and 128 numbers later where it ends.
pub fn name_place(name: &[u8], s: &[u8], places: &[u16], count: usize) -> usize
    requires { NamesStand s.now places.now count }
    ensures { (list : List Name) → NamesAt s.now places.now count list
        → result ≡ place same_name name.now list }
{
    for i in 0..count {
        let from = usize::from(places[i]);
        let to = usize::from(places[128 + i]);
        if same_name(name, &s[from..to]) {
            return i;
        }
    }
    count
}

// An earlier label has this name.
fn repeated_label(s: &[u8], from: usize, to: usize, index: &TableIndex) -> bool
    requires { ValueAt s.now from to index.now }
    ensures { (g : Table) → Indexes s.now index.now g
        → result ≡ any_pass (same_name (part s.now from to)) g.labels }
{
    let labels = index.label_count();
    name_place(&s[from..to], s, &index.names, labels) < labels
}

// Why a label is turned back, if it is.
fn label_answer(
    limits: SizeLimits,
    classes: &[u8],
    s: &[u8],
    from: usize,
    to: usize,
    index: &TableIndex,
) -> Result<(), Refusal>
    requires in_bounds { 256 ≤ length classes.now }
    requires value_at { ValueAt s.now from to index.now }
    ensures { AnswersFor s.now index.now
        (λ g. read_label (limits_of limits) classes.now g (part s.now from to)) result }
{
    if index.start_count() != 0 {
        return Err(Refusal::BadField);
    }
    if index.rule_count() != 0 {
        return Err(Refusal::BadField);
    }
    if from == to {
        return Err(Refusal::BadField);
    }
    if NAME < to - from {
        return Err(Refusal::BadField);
    }
    if is_name(classes, &s[from..to]) {
        if repeated_label(s, from, to, index) {
            return Err(Refusal::Repeated);
        }
        if limits.rules <= index.label_count() {
            return Err(Refusal::TooMany);
        }
        Ok(())
    } else {
        Err(Refusal::BadName)
    }
}

// Reads a label into the index.
pub fn after_label(
    limits: SizeLimits,
    classes: &[u8],
    s: &[u8],
    from: usize,
    to: usize,
    index: &mut TableIndex,
) -> Result<(), Refusal>
    requires in_bounds { 256 ≤ length classes.now }
    requires value_at { ValueAt s.now from to index.old }
    ensures { ReadsFor s.now index.old
        (λ g. read_label (limits_of limits) classes.now g (part s.now from to)) result index.new }
{
    label_answer(limits, classes, s, from, to, index)?;
    index.add_label(from, to);
    Ok(())
}
