// The rules of a result: one for each set of pairs, in the order of the sets.
ghost use Rattle.std.specs.Prelude.{◌+◌, ◌*◌, ◌≤◌, ◌<◌, ◌≡◌, length};
ghost use Rattle.grammar.specs.Limits.{input_limit};
ghost use Rattle.grammar.specs.Lists.{is_in};
ghost use Rattle.grammar.specs.Table.{Table};
ghost use Rattle.grammar.specs.SingleTypeForm.{TypeSet};
ghost use Rattle.sets.specs.Sets.{member, words_at};
ghost use Rattle.union.specs.View.{Views};
ghost use Rattle.union.specs.TypeLists.{ListsOf};
ghost use Rattle.union.specs.PairNumbers.{fruitful_of, is_left};
ghost use Rattle.operands.specs.Drafts.{draft_length};
ghost use Rattle.contents.specs.Completing.{Made};
ghost use Rattle.writer.specs.Tables.{RulePuts, RulesPut, TablePut, rest_bytes};
ghost use Rattle.forms.specs.SetForms.{pairs_within};
ghost use Rattle.results.specs.Results.{RulesFrom, RulesWith, rule_from};
ghost use Rattle.results.specs.PlanKind.{kind_of};

use crate::labels_used::label_place;
use crate::plan::{Kind, Plan};
use crate::text_pairs::has_text;
use contents::joining::{ResultTypes, content_of_set};
use forms::label_sets::{label_numbers, set_label};
use forms::set_numbers::result_lists;
use grammar::TooLarge;
use operands::limits::DRAFT;
use reader::tags::TABLE_END_TAG;
use reducing::meeting::met_set;
use reducing::type_lists::types_listed;
use sets::set::Set8;
use union::places::{LEFT, USED};
use writer::writing::{put_field, rule_tag};

// The scratch bytes in which a rule is made: its type, its label, and the draft of its content.
pub const SCRATCH: usize = 2 + DRAFT;

// The pairs that form the sets named in the content of a set.
fn pairs_within(old: &[u8], add: &[u8], plan: Plan, left: Set8, set: Set8) -> Set8
    requires { (u : Table) × Views old.now add.now plan.union u × ListsOf (fruitful_of u) plan.lists }
    ensures { ((u : Table) (s : TypeSet) → Views old.now add.now plan.union u
        → ListsOf (fruitful_of u) plan.lists → member left.words 0 ≡ is_left u → member set.words 0 ≡ (λ p. is_in p s)
        → member result.words 0 ≡ pairs_within (kind_of plan.kind) u s) × (length result.words ≡ 8) }
{
    match plan.kind {
        Kind::Local => left,
        Kind::SingleType => met_set(old, add, plan.union, plan.lists, set),
    }
}

// Makes the content of the set of a number at the front of the scratch bytes.
fn set_content(
    scratch: &mut [u8],
    old: &[u8],
    add: &[u8],
    plan: Plan,
    words: &[u32],
    i: usize,
    set: Set8,
) -> Result<usize, TooLarge>
    requires { (draft_length ≤ length scratch.old) × (i < plan.count) × (set.words ≡ words_at words.now (8 * i) 8)
        × RulesFrom old.now add.now plan words.now }
    ensures { (q : RulesFrom old.now add.now plan words.now)
        → Made scratch.new (rule_from q i).content result }
{
    let v = plan.union;
    let left = Set8::load(words, LEFT);
    let within = pairs_within(old, add, plan, left, set);
    let numbers = label_numbers(v, plan.labels, within, words, plan.count);
    let lists = result_lists(v, plan.lists, left, numbers);
    let types = types_listed(lists);
    content_of_set(old, add, v, set, ResultTypes { types, lists }, scratch)
}

// Writes the rule of the set of a number.
fn put_rule(
    draft: &mut [u8],
    at: usize,
    scratch: &mut [u8],
    old: &[u8],
    add: &[u8],
    plan: Plan,
    words: &[u32],
    i: usize,
) -> Result<usize, TooLarge>
    requires { (at ≤ input_limit) × (input_limit ≤ length draft.old) × (2 + draft_length ≤ length scratch.old) × (i < plan.count)
        × RulesWith old.now add.now plan words.now }
    ensures { (q : RulesWith old.now add.now plan words.now)
        → RulePuts draft.old at (rule_from q.rules i) draft.new result }
{
    let set = Set8::load(words, 8 * i);
    let used = Set8::load(words, USED);
    let label = label_place(used, set_label(plan.union, set));
    let end = set_content(&mut scratch[2..], old, add, plan, words, i, set)?;
    scratch[0] = i as u8;
    scratch[1] = label as u8;
    let stop = end + 2;
    let tag = rule_tag(has_text(set, plan.text, plan.union.rules));
    put_field(draft, at, tag, &scratch[0..stop])
}

// Writes the rules.
fn put_rules(
    draft: &mut [u8],
    at: usize,
    scratch: &mut [u8],
    old: &[u8],
    add: &[u8],
    plan: Plan,
    words: &[u32],
) -> Result<usize, TooLarge>
    requires { (at ≤ input_limit) × (input_limit ≤ length draft.old) × (2 + draft_length ≤ length scratch.old)
        × RulesWith old.now add.now plan words.now }
    ensures { (q : RulesWith old.now add.now plan words.now)
        → RulesPut draft.old at (rule_from q.rules) plan.count draft.new result }
{
    let mut end = at;
    for i in 0..plan.count {
        end = put_rule(draft, end, scratch, old, add, plan, words, i)?;
    }
    Ok(end)
}

// Writes the rules and the end.
pub fn put_rest(
    draft: &mut [u8],
    at: usize,
    scratch: &mut [u8],
    old: &[u8],
    add: &[u8],
    plan: Plan,
    words: &[u32],
) -> Result<usize, TooLarge>
    requires { (at ≤ input_limit) × (input_limit ≤ length draft.old) × (2 + draft_length ≤ length scratch.old)
        × RulesWith old.now add.now plan words.now }
    ensures { (q : RulesWith old.now add.now plan words.now)
        → TablePut draft.old at (rule_from q.rules) plan.count
        (rest_bytes (rule_from q.rules) plan.count) draft.new result }
{
    let end = put_rules(draft, at, scratch, old, add, plan, words)?;
    put_field(draft, end, TABLE_END_TAG, &scratch[0..0])
}
