// The kinds of a table, by its index: local, and single-type.
//
// The types of one content, or the starts, are a set at the front of the lent words. Eight words have a bit for each value of a byte.
ghost use Rattle.std.specs.Prelude.{◌≡◌, List, ℕ, ◌≤◌, ◌<◌, ◌&&◌, eqb, length};
ghost use Rattle.std.proofs.Math.Option.{some};
ghost use Rattle.std.proofs.Math.ListN.{get_elem?};
ghost use Rattle.grammar.specs.Content.{Content, types_in};
ghost use Rattle.grammar.specs.ReadContent.{content_bytes};
ghost use Rattle.grammar.specs.Table.{Rule, Table};
ghost use Rattle.grammar.specs.Lists.{all_pass, all_distinct};
ghost use Rattle.grammar.specs.KindTests.{same_pair, none_compete, is_local, is_single_type};
ghost use Rattle.grammar.specs.Limits.{large};
ghost use Rattle.reader.specs.TableIndex.{rule_count, Indexes};
ghost use Rattle.reader.specs.Held.{SomeHeld};
ghost use Rattle.kinds.specs.RulesAt.{any_below, same_label_at, same_pair_at, rivals, rivals_at, Holds, IsContent, TypesBelow};

use basis::work::clear;
use reader::index::TableIndex;
use reader::operators::{CHOICE, SEQUENCE, TYPE};
use sets::words::{has, put};

// An earlier rule has the label of this one.
fn label_before(index: &TableIndex, i: usize) -> bool
    requires { i < 128 }
    ensures { result ≡ any_below (same_label_at index.now i) i }
{
    let label = index.rule_label(i);
    (0..i).any(|j| index.rule_label(j) == label)
}

// No two rules have one label.
pub fn local_table(index: &TableIndex) -> bool
    requires { rule_count index.now ≤ 128 }
    ensures { (s : List ℕ) (g : Table) → Indexes s index.now g → result ≡ is_local g }
{
    !(0..index.rule_count()).any(|rule| label_before(index, rule))
}

// Two pairs of a type and a label are the same.
fn same_pair(k: usize, label: usize, l: usize, other: usize) -> bool
    ensures { result ≡ (eqb k l && eqb label other) }
{
    k == l && label == other
}

// An earlier rule has the type and the label of this one.
fn pair_before(index: &TableIndex, i: usize) -> bool
    requires { i < 128 }
    ensures { result ≡ any_below (same_pair_at index.now i) i }
{
    let k = index.rule_type(i);
    let label = index.rule_label(i);
    (0..i).any(|j| same_pair(k, label, index.rule_type(j), index.rule_label(j)))
}

// No two rules have one type and one label.
fn distinct_pairs(index: &TableIndex) -> bool
    requires { rule_count index.now ≤ 128 }
    ensures { (s : List ℕ) (g : Table) → Indexes s index.now g → result ≡ all_distinct same_pair g.rules }
{
    !(0..index.rule_count()).any(|rule| pair_before(index, rule))
}

// Leaves the set of the types that stand in a content: its operators one after the other, whatever they are operands of.
fn content_types(content: &[u8], words: &mut [u32])
    requires { (IsContent content.now) × (8 ≤ length words.old) }
    ensures { (c : Content) → content.now ≡ content_bytes c → Holds words.new (types_in c) }
{
    clear(words);
    let mut at: usize = 0;
    // A type number or a count follows some operators, so the steps are uneven.
    while at < content.len() {
        let operator = usize::from(content[at]);
        match operator {
            TYPE => {
                let k = usize::from(content[at + 1]);
                put(words, 0, k);
                at += 2;
            }
            SEQUENCE..=CHOICE => {
                at += 2;
            }
            _ => {
                at += 1;
            }
        }
    }
}

// Leaves the set of the starts.
fn start_types(index: &TableIndex, words: &mut [u32])
    requires { (TypesBelow index.now) × (8 ≤ length words.old) }
    ensures { (s : List ℕ) (g : Table) → Indexes s index.now g → Holds words.new g.starts }
{
    let starts = index.start_count();
    clear(words);
    for i in 0..starts {
        let start = index.start_type(i);
        put(words, 0, start);
    }
}

// One label, and two different types, the second of which stands.
fn is_rival(k: usize, label: usize, l: usize, other: usize, stands: bool) -> bool
    ensures { result ≡ rivals k label l other stands }
{
    k != l && label == other && stands
}

// This rule has a rival, and the types of both are in the set.
fn has_rival(index: &TableIndex, words: &[u32], i: usize) -> bool
    requires { (i < rule_count index.now) × (TypesBelow index.now) × (8 ≤ length words.now) }
    ensures { result ≡ any_below (rivals_at index.now words.now i) (rule_count index.now) }
{
    let k = index.rule_type(i);
    let label = index.rule_label(i);
    has(words, 0, k)
        && (0..index.rule_count()).any(|j| {
            let l = index.rule_type(j);
            is_rival(k, label, l, index.rule_label(j), has(words, 0, l))
        })
}

// No two different types of the set have rules with one label.
fn none_compete(index: &TableIndex, words: &[u32]) -> bool
    requires { (TypesBelow index.now) × (8 ≤ length words.now) }
    ensures { (s : List ℕ) (g : Table) (types : List ℕ) → Indexes s index.now g → Holds words.now types
        → result ≡ none_compete g types }
{
    !(0..index.rule_count()).any(|rule| has_rival(index, words, rule))
}

// No two different types that stand in the content of this rule have rules with one label.
#[tactic(auto, using(crate::proofs::IndexedKinds::content_order, crate::proofs::IndexedKinds::content_within))]
fn none_compete_in(table: &[u8], index: &TableIndex, i: usize, words: &mut [u32]) -> bool
    requires { (SomeHeld large table.now index.now) × (i < rule_count index.now)
        × (8 ≤ length words.old) }
    ensures { (g : Table) (rule : Rule) → Indexes table.now index.now g → get_elem? g.rules i ≡ some rule
        → result ≡ none_compete g (types_in rule.content) }
{
    let from = index.content_from(i);
    let to = index.content_to(i);
    content_types(&table[from..to], words);
    none_compete(index, words)
}

// The same of every content.
fn none_compete_in_any(table: &[u8], index: &TableIndex, words: &mut [u32]) -> bool
    requires { (SomeHeld large table.now index.now) × (8 ≤ length words.old) }
    ensures { (g : Table) → Indexes table.now index.now g
        → result ≡ all_pass (λ (rule : Rule). none_compete g (types_in rule.content)) g.rules }
{
    for rule in 0..index.rule_count() {
        if !none_compete_in(table, index, rule, words) {
            return false;
        }
    }
    true
}

// No two rules have one type and label, and no two different types compete among the starts or in a content.
pub fn single_type_table(table: &[u8], index: &TableIndex, words: &mut [u32]) -> bool
    requires { (SomeHeld large table.now index.now) × (8 ≤ length words.old) }
    ensures { (g : Table) → Indexes table.now index.now g → result ≡ is_single_type g }
{
    if !distinct_pairs(index) {
        return false;
    }
    start_types(index, words);
    none_compete(index, words) && none_compete_in_any(table, index, words)
}
