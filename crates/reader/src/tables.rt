// Table files: labels, then starts, then rules, then the end.
ghost use Rattle.std.specs.Prelude.{◌≡◌, ◌≤◌, length, drop};
ghost use Rattle.grammar.specs.Limits.{input_limit};
ghost use Rattle.grammar.specs.LimitSets.{limits_of};
ghost use Rattle.grammar.specs.Table.{Table, empty_table};
ghost use Rattle.grammar.specs.Answers.{reading};
ghost use Rattle.grammar.specs.Fields.{fields_of};
ghost use Rattle.grammar.specs.ReadTable.{read_table_field, read_table_fields, read_table};
ghost use Rattle.reader.specs.FieldAt.{TagBefore};
ghost use Rattle.reader.specs.TableIndex.{part, Inside, ValueAt, Reads, ReadsFor, end_outcome};

use crate::fields::{FieldAt, field_at};
use crate::index::TableIndex;
use crate::labels::after_label;
use crate::rules::after_rule;
use crate::starts::after_start;
use crate::tags::{LABEL_TAG, RULE_TAG, START_TAG, TABLE_END_TAG, TEXT_RULE_TAG};
use basis::limits::INPUT;
use grammar::{Refusal, SizeLimits};

// Reads a field that is not the end into the index.
fn after_field(
    limits: SizeLimits,
    classes: &[u8],
    s: &[u8],
    tag: u8,
    from: usize,
    to: usize,
    index: &mut TableIndex,
) -> Result<(), Refusal>
    requires in_bounds { 256 ≤ length classes.now }
    requires tag_before { TagBefore s.now from tag }
    requires value_at { ValueAt s.now from to index.old }
    ensures { ReadsFor s.now index.old
        (λ g. read_table_field (limits_of limits) classes.now g (record { tag = tag; value = part s.now from to })) result
        index.new }
{
    if tag == LABEL_TAG {
        return after_label(limits, classes, s, from, to, index);
    }
    if tag == START_TAG {
        return after_start(limits, s, from, to, index);
    }
    if tag == RULE_TAG {
        return after_rule(limits, s, from, to, index);
    }
    if tag == TEXT_RULE_TAG {
        return after_rule(limits, s, from, to, index);
    }
    Err(Refusal::BadField)
}

// What an end field says.
fn end_answer(s: &[u8], from: usize, to: usize) -> Result<(), Refusal>
    requires { Inside s.now from to }
    ensures { (g : Table) → result ≡ reading (end_outcome g (part s.now from to) (fields_of (drop to s.now))) }
{
    let size = s.len();
    if from != to {
        return Err(Refusal::BadField);
    }
    if to != size {
        return Err(Refusal::BytesAfterEnd);
    }
    Ok(())
}

// Reads the fields of a table into the index, front to back.
fn read_fields(
    limits: SizeLimits,
    classes: &[u8],
    s: &[u8],
    index: &mut TableIndex,
) -> Result<(), Refusal>
    requires in_bounds { 256 ≤ length classes.now }
    requires s_len_bound { length s.now ≤ input_limit }
    ensures { Reads s.now
        (read_table_fields (limits_of limits) classes.now empty_table (fields_of s.now)) result index.new }
{
    index.clear_index();
    let mut at: usize = 0;
    // Fields are of uneven lengths: each says where the next begins.
    loop {
        match field_at(s, at) {
            FieldAt::Found(tag, from, to) => {
                if tag == TABLE_END_TAG {
                    return end_answer(s, from, to);
                }
                after_field(limits, classes, s, tag, from, to, index)?;
                at = to;
            }
            FieldAt::NoBytes => {
                return Err(Refusal::FieldPastEnd);
            }
            FieldAt::PastEnd => {
                return Err(Refusal::FieldPastEnd);
            }
        }
    }
}

// Reads a table of labels, starts and rules into the index.
pub fn read_table(
    limits: SizeLimits,
    classes: &[u8],
    s: &[u8],
    index: &mut TableIndex,
) -> Result<(), Refusal>
    requires in_bounds { 256 ≤ length classes.now }
    ensures { Reads s.now (read_table (limits_of limits) classes.now s.now) result
        index.new }
{
    if INPUT < s.len() {
        return Err(Refusal::InputTooLong);
    }
    read_fields(limits, classes, s, index)
}
