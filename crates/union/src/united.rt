// The union of two tables by its rules' numbers: the tables stay as they are, in their own bytes.
ghost use Rattle.std.specs.Prelude.{◌≡◌, List, [], ◌∷◌, ◌++◌, map, ℕ, ◌+◌, ◌<◌, ◌≤◌, take};
ghost use Rattle.grammar.specs.Lists.{place};
ghost use Rattle.grammar.specs.Limits.{large};
ghost use Rattle.grammar.specs.Table.{Rule, Table};
ghost use Rattle.grammar.specs.KindTests.{same_pair};
ghost use Rattle.grammar.specs.Unite.{added, unite};
ghost use Rattle.reader.specs.Held.{Held, SomeHeld};
ghost use Rattle.reader.specs.TableIndex.{rule_count};
ghost use Rattle.union.specs.View.{Views, rules_only, NextRule, Grown, Adding, AddingTo, UnionSeen};

use crate::labels::{Names, new_names, united_label};
use reader::index::TableIndex;

// Old rules come first. A type of the addition counts from 128 on. `firsts` has the number of the first rule of each rule's pair; the
// content of a rule stands in the bytes of its own table. It is a copy wherever it goes: it has nothing but numbers, and the contracts
// and the steps above take it by value. A body that looks places up in one of its arrays names the array first: an index into the struct
// copies all of it each time.
#[derive(Clone, Copy)]
pub struct United {
    pub rules: usize,
    pub old_rules: usize,
    pub types: [u8; 256],
    pub labels: [u8; 256],
    pub firsts: [u8; 256],
    pub content_from: [u16; 256],
    pub content_to: [u16; 256],
}

// A union: its rules, and where its new labels stand in the addition's bytes. The old labels stand where the old index says.
// By value, as its rules.
#[derive(Clone, Copy)]
pub struct Union {
    pub rules: United,
    pub new_names: Names,
}

// The first rule of this type and label; the number of rules where there is none.
fn pair_place(v: United, ty: u8, label: u8) -> usize
    requires { v.rules ≤ 256 }
    ensures { ((old add : List ℕ) (rs : List Rule) (x : Rule) → Views old add v (rules_only rs)
        → ty ≡ x.type → label ≡ x.label → result ≡ place same_pair x rs) × (result ≤ v.rules) }
{
    let types = v.types;
    let labels = v.labels;
    for i in 0..v.rules {
        if ty == types[i] && label == labels[i] {
            return i;
        }
    }
    v.rules
}

// The view with one rule more.
fn with_rule(v: United, ty: u8, label: u8, from: u16, to: u16) -> United
    requires { v.rules < 256 }
    ensures { ((old add : List ℕ) (rs : List Rule) (x : Rule) → Views old add v (rules_only rs)
        → NextRule old add v ty label from to x → Views old add result (rules_only (rs ++ (x ∷ [])))) × Grown v result }
{
    let first = pair_place(v, ty, label);
    let n = v.rules;
    let mut more = v;
    more.types[n] = ty;
    more.labels[n] = label;
    more.firsts[n] = first as u8;
    more.content_from[n] = from;
    more.content_to[n] = to;
    more.rules = n + 1;
    more
}

// The view of no rules yet.
fn no_rules(olds: usize) -> United
    ensures { ((old add : List ℕ) → Views old add result (rules_only [])) × (result.rules ≡ 0) × (result.old_rules ≡ olds) }
{
    United {
        rules: 0,
        old_rules: olds,
        types: [0; 256],
        labels: [0; 256],
        firsts: [0; 256],
        content_from: [0; 256],
        content_to: [0; 256],
    }
}

// One rule more of the old table.
fn with_old_rule(v: United, index: &TableIndex, i: usize) -> United
    requires { ((old : List ℕ) × SomeHeld large old index.now) × (v.rules ≡ i) × (i < rule_count index.now)
        × (v.old_rules ≡ rule_count index.now) }
    ensures { ((old add : List ℕ) (g : Table) → Held large old index.now g
        → Views old add v (rules_only (take i g.rules)) → Views old add result (rules_only (take (i + 1) g.rules))) × Grown v result }
{
    with_rule(
        v,
        index.rule_type(i) as u8,
        index.rule_label(i) as u8,
        index.contents_from[i],
        index.contents_to[i],
    )
}

// The rules of the old table.
fn old_rules(index: &TableIndex) -> United
    requires { (old : List ℕ) × SomeHeld large old index.now }
    ensures { ((old add : List ℕ) (g : Table) → Held large old index.now g
        → Views old add result (rules_only g.rules))
        × (result.rules ≡ rule_count index.now) × (result.old_rules ≡ rule_count index.now) }
{
    let rules = index.rule_count();
    let mut v = no_rules(rules);
    for i in 0..rules {
        v = with_old_rule(v, index, i);
    }
    v
}

// One rule more of the addition.
fn with_new_rule(
    v: United,
    old: &[u8],
    olds: &TableIndex,
    add: &[u8],
    adds: &TableIndex,
    fresh: Names,
    i: usize,
) -> United
    requires { (Adding old.now olds.now add.now adds.now fresh) × (v.rules ≡ v.old_rules + i)
        × (i < rule_count adds.now) × (v.old_rules ≤ 128) }
    ensures { ((g h : Table) → AddingTo old.now olds.now add.now adds.now fresh g h
        → Views old.now add.now v (rules_only (g.rules ++ map (added large g h) (take i h.rules)))
        → Views old.now add.now result
        (rules_only (g.rules ++ map (added large g h) (take (i + 1) h.rules)))) × Grown v result }
{
    let label = united_label(old, olds, add, adds, fresh, adds.rule_label(i));
    with_rule(
        v,
        (128 + adds.rule_type(i)) as u8,
        label as u8,
        adds.contents_from[i],
        adds.contents_to[i],
    )
}

// The rules of the addition after those of the old table.
fn new_rules(
    v: United,
    old: &[u8],
    olds: &TableIndex,
    add: &[u8],
    adds: &TableIndex,
    fresh: Names,
) -> United
    requires { (Adding old.now olds.now add.now adds.now fresh) × (v.rules ≡ v.old_rules) × (v.old_rules ≤ 128) }
    ensures { (g h : Table) → AddingTo old.now olds.now add.now adds.now fresh g h
        → Views old.now add.now v (rules_only g.rules)
        → Views old.now add.now result (unite large g h) }
{
    let mut all = v;
    for i in 0..adds.rule_count() {
        all = with_new_rule(all, old, olds, add, adds, fresh, i);
    }
    all
}

// The union of two tables that were read.
pub fn unite_tables(old: &[u8], index: &TableIndex, add: &[u8], addition: &TableIndex) -> Union
    requires { (SomeHeld large old.now index.now) × (SomeHeld large add.now addition.now) }
    ensures { (g h : Table) → Held large old.now index.now g
        → Held large add.now addition.now h
        → UnionSeen old.now add.now g h result }
{
    let fresh = new_names(old, index, add, addition);
    let v = old_rules(index);
    let all = new_rules(v, old, index, add, addition, fresh);
    Union {
        rules: all,
        new_names: fresh,
    }
}
