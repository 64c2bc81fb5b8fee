// The table of a result by sets of pairs, written from the draft's beginning.
ghost use Rattle.std.specs.Prelude.{◌+◌, ◌≤◌, length};
ghost use Rattle.grammar.specs.Limits.{input_limit};
ghost use Rattle.grammar.specs.Lists.{keep, numbers_below};
ghost use Rattle.grammar.specs.WriteTable.{table_bytes};
ghost use Rattle.sets.specs.Sets.{set_of_eight_at};
ghost use Rattle.union.specs.Places.{start_types_at};
ghost use Rattle.operands.specs.Drafts.{draft_length};
ghost use Rattle.forms.specs.SetForms.{table_by_sets, pairs_within};
ghost use Rattle.writer.specs.Tables.{TablePut};
ghost use Rattle.results.specs.Results.{RulesWith, ResultFrom, rule_from, body_bytes};
ghost use Rattle.results.specs.PlanKind.{kind_of};

use crate::labels_used::{labels_used, put_labels};
use crate::plan::Plan;
use crate::rules::put_rest;
use crate::starts::put_starts;
use grammar::TooLarge;
use reader::index::TableIndex;
use union::labels::Names;

// Writes the starts, the rules and the end.
fn put_body(
    draft: &mut [u8],
    at: usize,
    scratch: &mut [u8],
    old: &[u8],
    add: &[u8],
    plan: Plan,
    words: &[u32],
) -> Result<usize, TooLarge>
    requires { (at ≤ input_limit) × (input_limit ≤ length draft.old) × (2 + draft_length ≤ length scratch.old)
        × RulesWith old.now add.now plan words.now }
    ensures { (q : RulesWith old.now add.now plan words.now)
        → TablePut draft.old at (rule_from q.rules) plan.count
        (body_bytes (set_of_eight_at words.now start_types_at) (rule_from q.rules) plan.count) draft.new result }
{
    let end = put_starts(draft, at, words, plan.count)?;
    put_rest(draft, end, scratch, old, add, plan, words)
}

// Writes the table of a result: the labels used, the starts, a rule for each set, the end.
pub fn put_result(
    draft: &mut [u8],
    scratch: &mut [u8],
    old: &[u8],
    add: &[u8],
    plan: Plan,
    olds: &TableIndex,
    news: Names,
    words: &mut [u32],
) -> Result<usize, TooLarge>
    requires { (input_limit ≤ length draft.old) × (2 + draft_length ≤ length scratch.old)
        × ResultFrom old.now add.now plan olds.now news words.old }
    ensures { (q : ResultFrom old.now add.now plan olds.now news words.old)
        → TablePut draft.old 0 (rule_from q.rules) plan.count
        (table_bytes (table_by_sets q.rules.in_words.table q.rules.in_words.sets
        (pairs_within (kind_of plan.kind) q.rules.in_words.table)
        (keep (set_of_eight_at words.old start_types_at) (numbers_below plan.count)))) draft.new result }
{
    labels_used(plan.union, words, plan.count);
    let end = put_labels(draft, old, add, olds, news, words)?;
    put_body(draft, end, scratch, old, add, plan, words)
}
