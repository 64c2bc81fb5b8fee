// Widening a table that was read by another, to either kind: the union, its fruitful pairs, those that are left, the sets that are the
// types of the result, and the result in a draft.
ghost use Rattle.std.specs.Prelude.{List, ◌≡◌, ℕ, ◌+◌, ◌≤◌, length};
ghost use Rattle.grammar.specs.Limits.{large, input_limit};
ghost use Rattle.grammar.specs.LimitSets.{limits_of};
ghost use Rattle.grammar.specs.Table.{Table};
ghost use Rattle.grammar.specs.Unite.{unite};
ghost use Rattle.grammar.specs.Kinds.{local, single_type};
ghost use Rattle.reader.specs.Held.{Held, SomeHeld};
ghost use Rattle.reader.specs.declared.index.TableIndex.{TableIndex};
ghost use Rattle.reader.specs.TableIndex.{label_count};
ghost use Rattle.results.specs.PlanKind.{kind_of};
ghost use Rattle.steps.specs.Widened.{Widens, UnionReduced, SomeReduced, TypesCounted};

use crate::start_types::{first_numbers, start_numbers};
use forms::label_sets::{label_numbers, label_sets};
use forms::worklist::more_sets;
use grammar::{Refusal, SizeLimits};
use reader::index::TableIndex;
use reducing::leaving::{pairs_left, start_pairs};
use reducing::type_lists::fruitful_lists;
use results::plan::{Kind, Plan};
use results::result::put_result;
use results::rules::SCRATCH;
use results::text_pairs::text_pairs;
use sets::set::Set8;
use union::fruitful::fruitful_pairs;
use union::lists::TypeLists;
use union::places::{LEFT, SETS, STARTS};
use union::united::{Union, unite_tables};

// The types of a local result, laid down in the words: one set a label, of the pairs left.
fn local_types(limits: SizeLimits, union: Union, labels: usize, words: &mut [u32]) -> Option<usize>
    requires { ((old : List ℕ) × (add : List ℕ) × (index : TableIndex) × (lists : TypeLists)
        × (labels ≡ label_count index + union.new_names.count)
        × SomeReduced (limits_of limits) old add index union lists words.old)
        × (12288 ≤ length words.old) }
    ensures { (old add : List ℕ) (index : TableIndex) (lists : TypeLists) (g h : Table) → labels ≡ label_count index + union.new_names.count
        → UnionReduced (limits_of limits) old add index union lists words.old g h
        → TypesCounted (limits_of limits) local (unite large g h) words.new result }
{
    let v = union.rules;
    let left = Set8::load(words, LEFT);
    let count = label_sets(limits.rules, v, labels, left, &mut words[0..SETS])?;
    let numbers = label_numbers(v, labels, left, words, count);
    start_numbers(v, numbers, words);
    Some(count)
}

// Those of a single-type result: the start sets, one a label, then those met in them, and so on.
fn single_types(
    limits: SizeLimits,
    old: &[u8],
    add: &[u8],
    union: Union,
    lists: TypeLists,
    labels: usize,
    words: &mut [u32],
) -> Option<usize>
    requires { ((index : TableIndex) × (labels ≡ label_count index + union.new_names.count)
        × SomeReduced (limits_of limits) old.now add.now index union lists words.old)
        × (12288 ≤ length words.old) }
    ensures { (index : TableIndex) (g h : Table) → labels ≡ label_count index + union.new_names.count
        → UnionReduced (limits_of limits) old.now add.now index union lists words.old g h
        → TypesCounted (limits_of limits) single_type (unite large g h) words.new result }
{
    let v = union.rules;
    let most = limits.rules;
    let starts = Set8::load(words, STARTS);
    let first = label_sets(most, v, labels, starts, &mut words[0..SETS])?;
    let count = more_sets(most, old, add, v, lists, &mut words[0..SETS], first)?;
    first_numbers(first, words);
    Some(count)
}

// The types of a result of either kind.
fn types_of_kind(
    limits: SizeLimits,
    kind: Kind,
    old: &[u8],
    add: &[u8],
    union: Union,
    lists: TypeLists,
    labels: usize,
    words: &mut [u32],
) -> Option<usize>
    requires { ((index : TableIndex) × (labels ≡ label_count index + union.new_names.count)
        × SomeReduced (limits_of limits) old.now add.now index union lists words.old)
        × (12288 ≤ length words.old) }
    ensures { (index : TableIndex) (g h : Table) → labels ≡ label_count index + union.new_names.count
        → UnionReduced (limits_of limits) old.now add.now index union lists words.old g h
        → TypesCounted (limits_of limits) (kind_of kind) (unite large g h) words.new result }
{
    match kind {
        Kind::Local => local_types(limits, union, labels, words),
        Kind::SingleType => single_types(limits, old, add, union, lists, labels, words),
    }
}

// To either kind, once the union is reduced.
fn widen_reduced(
    limits: SizeLimits,
    kind: Kind,
    old: &[u8],
    add: &[u8],
    index: &TableIndex,
    union: Union,
    lists: TypeLists,
    words: &mut [u32],
    draft: &mut [u8],
) -> Result<usize, Refusal>
    requires { (SomeReduced (limits_of limits) old.now add.now index.now union lists words.old)
        × (12288 ≤ length words.old)
        × (input_limit ≤ length draft.old) }
    ensures { (g h : Table) → UnionReduced (limits_of limits) old.now add.now
        index.now union lists words.old g h
        → Widens (limits_of limits) (kind_of kind) g h draft.old draft.new result }
{
    let v = union.rules;
    let news = union.new_names;
    let labels = index.label_count() + news.count;
    match types_of_kind(limits, kind, old, add, union, lists, labels, words) {
        None => Err(Refusal::ResultTooLarge),
        Some(count) => {
            let mut scratch = [0u8; SCRATCH];
            let plan = Plan {
                union: v,
                labels,
                lists,
                text: text_pairs(old, add, v, lists),
                count,
                kind,
            };
            put_result(draft, &mut scratch, old, add, plan, index, news, words).map_err(
                Refusal::from,
            )
        }
    }
}

// The widening of one table by another, from the draft's beginning.
pub fn widen_tables(
    limits: SizeLimits,
    kind: Kind,
    old: &[u8],
    index: &TableIndex,
    add: &[u8],
    addition: &TableIndex,
    words: &mut [u32],
    draft: &mut [u8],
) -> Result<usize, Refusal>
    requires { (SomeHeld (limits_of limits) old.now index.now)
        × (SomeHeld (limits_of limits) add.now addition.now) × (12288 ≤ length words.old)
        × (input_limit ≤ length draft.old) }
    ensures { (g h : Table) → Held (limits_of limits) old.now index.now g
        → Held (limits_of limits) add.now addition.now h
        → Widens (limits_of limits) (kind_of kind) g h draft.old draft.new result }
{
    let union = unite_tables(old, index, add, addition);
    let v = union.rules;
    fruitful_pairs(old, add, v, words);
    let lists = fruitful_lists(v, words);
    start_pairs(lists, index, addition, words);
    if Set8::load(words, STARTS).is_empty() {
        return Err(Refusal::NoDocument);
    }
    pairs_left(old, add, v, lists, words);
    widen_reduced(limits, kind, old, add, index, union, lists, words, draft)
}
