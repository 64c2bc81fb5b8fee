// The pairs that are met in the contents of a set of pairs, once those are in normal form and reduced.
ghost use Rattle.std.specs.Prelude.{◌≡◌, ◌-◌, ◌<◌, eqb, length, take, drop};
ghost use Rattle.grammar.specs.Lists.{is_in, distinct};
ghost use Rattle.grammar.specs.Table.{Table};
ghost use Rattle.theory.specs.Alternatives.{only_if};
ghost use Rattle.sets.specs.Sets.{member, in_either};
ghost use Rattle.union.specs.View.{Views, Viewed};
ghost use Rattle.union.specs.Walks.{MetAsks, PartOfNumbers};
ghost use Rattle.union.specs.PairNumbers.{fruitful_of, met_in};
ghost use Rattle.union.specs.TypeLists.{ListsOf};
ghost use Rattle.reducing.specs.PairsListed.{BothListed};
ghost use Rattle.reducing.specs.PairsMet.{ContentMet, met_in_rule, met_in_pair, MeetAsks, Meets, MetHeld};

use sets::set::{Set4, Set8};
use union::lists::{Lists, TypeLists};
use union::met::met;
use union::united::United;

// Pairs, each once, in the order in which they are met.
#[derive(Clone, Copy)]
pub struct Met {
    pub numbers: [u8; 256],
    pub count: usize,
}

// Adds the pairs met in a content, by the lists of its table's types.
fn met_in_content(content: &[u8], lists: Lists, list: &mut [u8], count: usize) -> usize
    requires { MetAsks content.now 0 lists.from lists.numbers list.old count }
    ensures { ContentMet content.now lists (take count list.old) list.new result }
{
    met(
        content,
        0,
        &lists.from,
        &lists.numbers,
        list,
        count,
        Set4::empty(),
    )
    .count
}

// Adds the pairs met in the content of a rule.
fn met_in_rule(
    old: &[u8],
    add: &[u8],
    v: United,
    lists: TypeLists,
    i: usize,
    list: &mut [u8],
    count: usize,
) -> usize
    requires { (MeetAsks old.now add.now v lists list.old count) × (i < v.rules) }
    ensures { Meets old.now add.now v lists (λ u. met_in_rule u i) (take count list.old)
        list.new result }
{
    let content_from = v.content_from;
    let content_to = v.content_to;
    let from = usize::from(content_from[i]);
    let to = usize::from(content_to[i]);
    if i < v.old_rules {
        return met_in_content(&old[from..to], lists.old, list, count);
    }
    met_in_content(&add[from..to], lists.addition, list, count)
}

// Adds the pairs met in the contents of a pair.
fn met_in_pair(
    old: &[u8],
    add: &[u8],
    v: United,
    lists: TypeLists,
    p: usize,
    list: &mut [u8],
    count: usize,
) -> usize
    requires { MeetAsks old.now add.now v lists list.old count }
    ensures { Meets old.now add.now v lists (λ u. met_in_pair u p) (take count list.old)
        list.new result }
{
    let firsts = v.firsts;
    let mut more = count;
    for i in 0..v.rules {
        if usize::from(firsts[i]) == p {
            more = met_in_rule(old, add, v, lists, i, list, more);
        }
    }
    more
}

// The pairs met in the contents of a set of pairs.
pub fn met_in_set(old: &[u8], add: &[u8], v: United, lists: TypeLists, set: Set8) -> Met
    requires { (Viewed old.now add.now v) × (BothListed lists) }
    ensures { ((u : Table) → Views old.now add.now v u → ListsOf (fruitful_of u) lists
        → take result.count result.numbers ≡ distinct eqb (met_in u (member set.words 0))) × (MetHeld result) }
{
    let mut numbers = [0u8; 256];
    let mut count: usize = 0;
    for p in 0..v.rules {
        if set.has(p) {
            count = met_in_pair(old, add, v, lists, p, &mut numbers, count);
        }
    }
    Met { numbers, count }
}

// A set with the numbers of a part.
pub fn with_part(set: Set8, numbers: &[u8], first: usize, end: usize) -> Set8
    requires { PartOfNumbers numbers.now first end }
    ensures { (member result.words 0
        ≡ in_either (λ p. is_in p (take (end - first) (drop first numbers.now))) (member set.words 0))
        × (length result.words ≡ 8) }
{
    let part = &numbers[first..end];
    let mut more = set;
    for number in part {
        more = more.with(usize::from(*number));
    }
    more
}

// The set of the pairs met.
pub fn set_of(found: Met) -> Set8
    requires { MetHeld found }
    ensures { (member result.words 0 ≡ (λ p. is_in p (take found.count found.numbers))) × (length result.words ≡ 8) }
{
    with_part(Set8::empty(), &found.numbers, 0, found.count)
}

// The pairs met in the contents of a set of pairs, as a set.
pub fn met_set(old: &[u8], add: &[u8], v: United, lists: TypeLists, set: Set8) -> Set8
    requires { (Viewed old.now add.now v) × (BothListed lists) }
    ensures { ((u : Table) → Views old.now add.now v u → ListsOf (fruitful_of u) lists
        → member result.words 0 ≡ (λ p. is_in p (met_in u (member set.words 0)))) × (length result.words ≡ 8) }
{
    set_of(met_in_set(old, add, v, lists, set))
}
