// The sets of the single-type form: those of the starts, and those met in the contents of each, lowest first.
ghost use Rattle.std.specs.Prelude.{List, ◌++◌, ◌≡◌, ℕ, ◌≤◌, eqb, length, take};
ghost use Rattle.grammar.specs.Limits.{Limits};
ghost use Rattle.grammar.specs.Lists.{distinct, is_in, same_numbers};
ghost use Rattle.grammar.specs.SingleTypeForm.{TypeSet};
ghost use Rattle.grammar.specs.Table.{Table};
ghost use Rattle.union.specs.View.{Views, Viewed};
ghost use Rattle.union.specs.PairNumbers.{fruitful_of, is_start, met_in};
ghost use Rattle.union.specs.TypeLists.{ListsOf};
ghost use Rattle.reducing.specs.PairsListed.{BothListed};
ghost use Rattle.reducing.specs.PairsMet.{MetHeld};
ghost use Rattle.forms.specs.SetForms.{label_sets, single_type_sets};
ghost use Rattle.forms.specs.SetWords.{SetsHeld, SetsCounted};
ghost use Rattle.forms.specs.Worklist.{Few, sets_within};

use crate::label_sets::labelled_pairs;
use crate::set_words::add_set;
use reducing::meeting::{Met, met_in_set, set_of};
use sets::set::Set8;
use union::lists::TypeLists;
use union::united::United;

// Adds the sets that the pairs met in a set give: for each pair those met that share its label, unless that set is there.
fn add_met(most: usize, v: United, found: Met, words: &mut [u32], count: usize) -> Option<usize>
    requires { (most ≤ 128) × (v.rules ≤ 256) × (MetHeld found) × (count ≤ most) × (1024 ≤ length words.old) }
    ensures { ((old add : List ℕ) (u : Table) (sets : List TypeSet) (s : TypeSet) → Views old add v u
        → SetsHeld words.old sets → count ≡ length sets → distinct same_numbers sets ≡ sets
        → take found.count found.numbers ≡ distinct eqb (met_in u (λ q. is_in q s))
        → SetsCounted most words.new (distinct same_numbers (sets ++ sets_within u s)) result) × (Few most result) }
{
    let all = set_of(found);
    let numbers = found.numbers;
    let labels = v.labels;
    let mut total = count;
    for i in 0..found.count {
        let p = usize::from(numbers[i]);
        let set = labelled_pairs(v, all, usize::from(labels[p]));
        total = add_set(most, words, total, set)?;
    }
    Some(total)
}

// From the start sets to all sets: the sets from number `next` on are still to be looked into. `most` is the limit on types.
pub fn more_sets(
    most: usize,
    old: &[u8],
    add: &[u8],
    v: United,
    lists: TypeLists,
    words: &mut [u32],
    count: usize,
) -> Option<usize>
    requires { (most ≤ 128) × (Viewed old.now add.now v) × (BothListed lists) × (count ≤ most) × (1024 ≤ length words.old) }
    ensures { (lim : Limits) (u : Table) → most ≡ lim.types → Views old.now add.now v u
        → ListsOf (fruitful_of u) lists
        → SetsHeld words.old (label_sets u (is_start u)) → count ≡ length (label_sets u (is_start u))
        → SetsCounted most words.new (single_type_sets lim u) result }
{
    let mut total = count;
    let mut next: usize = 0;
    // A worklist: the end moves on as sets are added.
    while next < total {
        let set = Set8::load(words, 8 * next);
        let found = met_in_set(old, add, v, lists, set);
        total = add_met(most, v, found, words, total)?;
        next += 1;
    }
    Some(total)
}
