// Rules of a table: type byte, label byte, content of 1 to 1,024 bytes.
ghost use Rattle.grammar.specs.LimitSets.{limits_of};
ghost use Rattle.std.specs.Prelude.{Bool, ◌<◌, ◌≡◌};
ghost use Rattle.grammar.specs.ReadTable.{rule_tag, read_rule};
ghost use Rattle.reader.specs.FieldAt.{TagBefore};
ghost use Rattle.reader.specs.TableIndex.{part, rule_count, Indexes, TableIndexed, ValueAt, AnswersFor, ReadsFor};
ghost use Rattle.std.proofs.Math.Option.{some as just};
ghost use Rattle.std.proofs.Math.ListN.{get_elem?};
ghost use Rattle.grammar.specs.Table.{Rule, Table};

use crate::expressions::content_refusal;
use crate::index::TableIndex;
use crate::tags::TEXT_RULE_TAG;
use basis::limits::CONTENT;
use grammar::{Refusal, SizeLimits};

// Why a rule is turned back, if it is. Whether it is for text makes no difference.
fn rule_answer(
    limits: SizeLimits,
    s: &[u8],
    from: usize,
    to: usize,
    index: &TableIndex,
) -> Result<(), Refusal>
    requires { ValueAt s.now from to index.now }
    ensures { (text : Bool) → AnswersFor s.now index.now
        (λ g. read_rule (limits_of limits) g text (part s.now from to)) result }
{
    let size = to - from;
    if size < 3 {
        return Err(Refusal::BadField);
    }
    if CONTENT + 2 < size {
        return Err(Refusal::BadField);
    }
    let ty = usize::from(s[from]);
    let label = usize::from(s[from + 1]);
    if limits.rules <= index.rule_count() {
        return Err(Refusal::TooMany);
    }
    if limits.rules <= ty {
        return Err(Refusal::OutOfRange);
    }
    if index.label_count() <= label {
        return Err(Refusal::OutOfRange);
    }
    let content = from + 2;
    content_refusal(limits.rules, &s[content..to])
}

// Reads a rule into the index. Its tag stands before its value, so the index does not keep whether it is for text.
pub fn after_rule(
    limits: SizeLimits,
    s: &[u8],
    from: usize,
    to: usize,
    index: &mut TableIndex,
) -> Result<(), Refusal>
    requires value_at { ValueAt s.now from to index.old }
    ensures { (text : Bool) → TagBefore s.now from (rule_tag text) → ReadsFor s.now index.old
        (λ g. read_rule (limits_of limits) g text (part s.now from to)) result index.new }
{
    rule_answer(limits, s, from, to, index)?;
    index.add_rule(s[from], s[from + 1], from + 2, to);
    Ok(())
}

// Whether the rule of a number is for text: its tag stands five bytes before its content.
pub fn for_text(table: &[u8], index: &TableIndex, rule: usize) -> bool
    requires { (TableIndexed table.now index.now) × (rule < rule_count index.now) }
    ensures { (g : Table) (q : Rule) → Indexes table.now index.now g → get_elem? g.rules rule ≡ just q
        → result ≡ q.text }
{
    let from = index.content_from(rule);
    table[from - 5] == TEXT_RULE_TAG
}
