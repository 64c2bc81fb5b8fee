// The lists of the fruitful pairs by type, with the numbers of sets in place of pairs.
ghost use Rattle.std.specs.Prelude.{Bool, List, map, ◌≡◌, ℕ, ◌≤◌, ◌<◌, length, get_or};
ghost use Rattle.grammar.specs.Lists.{place, same_numbers};
ghost use Rattle.grammar.specs.SingleTypeForm.{TypeSet};
ghost use Rattle.grammar.specs.Table.{Table};
ghost use Rattle.grammar.specs.Normalise.{pairs_of, normalise};
ghost use Rattle.grammar.specs.Reduce.{fruitful};
ghost use Rattle.theory.specs.Alternatives.{results_of};
ghost use Rattle.theory.specs.Conditions.{Labelled};
ghost use Rattle.sets.specs.Sets.{member};
ghost use Rattle.union.specs.View.{Views};
ghost use Rattle.union.specs.PairNumbers.{is_left, fruitful_of};
ghost use Rattle.union.specs.TypeLists.{ListsOf};
ghost use Rattle.forms.specs.Worklist.{NumbersOf};
ghost use Rattle.forms.specs.SetForms.{pairs_labelled, label_left, set_number};

use crate::label_sets::Numbers;
use sets::set::Set8;
use union::lists::{Lists, TypeLists};
use union::united::United;

// The label of a pair, where it is left.
fn label_left(v: United, left: Set8, p: usize) -> usize
    requires { (v.rules ≤ 256) × (p < v.rules) }
    ensures { ((old add : List ℕ) (u : Table) → Views old add v u → member left.words 0 ≡ is_left u → result ≡ label_left u p)
        × (result < 256) }
{
    if left.has(p) {
        let labels = v.labels;
        return usize::from(labels[p]);
    }
    0
}

// For each pair the number of the set of its label.
fn pair_numbers(v: United, left: Set8, numbers: Numbers) -> Numbers
    requires { (v.rules ≤ 256) × ((l : ℕ) → get_or numbers.of l 0 ≤ 128) }
    ensures { ((old add : List ℕ) (u : Table) → Views old add v u → member left.words 0 ≡ is_left u
        → NumbersOf (λ p. get_or numbers.of (label_left u p) 0) v.rules result.of) × ((p : ℕ) → get_or result.of p 0 ≤ 128) }
{
    let mut of = [0u8; 256];
    for p in 0..v.rules {
        of[p] = numbers.of[label_left(v, left, p)];
    }
    Numbers { of }
}

// The lists with other numbers in place of their own.
fn renumbered(lists: Lists, numbers: Numbers) -> Lists
    ensures { (result.from ≡ lists.from) × (result.numbers ≡ map (λ p. get_or numbers.of p 0) lists.numbers) }
{
    let from = lists.from;
    let mut after = lists.numbers;
    for n in after.iter_mut() {
        *n = numbers.of[usize::from(*n)];
    }
    Lists {
        from,
        numbers: after,
    }
}

// For each type the numbers of the sets of its fruitful pairs. `numbers` are those of the labels.
pub fn result_lists(v: United, lists: TypeLists, left: Set8, numbers: Numbers) -> TypeLists
    requires { (v.rules ≤ 256) × ((l : ℕ) → get_or numbers.of l 0 ≤ 128) }
    ensures { (old add : List ℕ) (u : Table) (sets : List TypeSet) (pairs : ℕ → Bool) → Views old add v u
        → ListsOf (fruitful_of u) lists → member left.words 0 ≡ is_left u → Labelled u
        → NumbersOf (λ l. place same_numbers (pairs_labelled u pairs l) sets) (length u.labels) numbers.of
        → ListsOf (results_of (pairs_of u) (fruitful (normalise u)) (set_number u sets pairs)) result }
{
    let of = pair_numbers(v, left, numbers);
    let old = renumbered(lists.old, of);
    let addition = renumbered(lists.addition, of);
    TypeLists { old, addition }
}
