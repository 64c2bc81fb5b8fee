// The pairs that reducing leaves: those that are reached from the pairs of the start types, by rounds until one adds nothing.
ghost use Rattle.std.specs.Prelude.{◌≡◌, List, ℕ, ◌≤◌, ◌<◌, length};
ghost use Rattle.grammar.specs.Lists.{is_in, joined_of, numbers_below};
ghost use Rattle.grammar.specs.Limits.{large};
ghost use Rattle.grammar.specs.Table.{Table};
ghost use Rattle.grammar.specs.Unite.{unite};
ghost use Rattle.sets.specs.Sets.{member, set_of_eight_at, in_either, KeptAround};
ghost use Rattle.reader.specs.TableIndex.{start_type, start_count};
ghost use Rattle.reader.specs.Held.{Held};
ghost use Rattle.union.specs.View.{Views, Viewed};
ghost use Rattle.union.specs.Places.{starts_at, left_at};
ghost use Rattle.union.specs.PairNumbers.{fruitful_of, is_start, is_left};
ghost use Rattle.union.specs.TypeLists.{ListsOf};
ghost use Rattle.union.specs.Walks.{list_of_type, Listed};
ghost use Rattle.reducing.specs.PairsListed.{BothListed, StartsSmall};

use crate::meeting::{met_set, with_part};
use reader::index::TableIndex;
use sets::set::Set8;
use union::lists::{Lists, TypeLists};
use union::places::{LEFT, STARTS};
use union::united::United;

// A set with the numbers of a type's list.
fn with_list(set: Set8, lists: Lists, k: usize) -> Set8
    requires { (Listed 128 256 lists.from lists.numbers) × (k < 128) }
    ensures { (member result.words 0 ≡ in_either (λ p. is_in p (list_of_type lists.from lists.numbers k)) (member set.words 0))
        × (length result.words ≡ 8) }
{
    with_part(
        set,
        &lists.numbers,
        usize::from(lists.from[k]),
        usize::from(lists.from[k + 1]),
    )
}

// A set with the numbers of the lists of a table's start types.
fn with_starts(set: Set8, lists: Lists, index: &TableIndex) -> Set8
    requires { (Listed 128 256 lists.from lists.numbers) × (StartsSmall index.now) }
    ensures { (member result.words 0 ≡ in_either (λ p. is_in p
        (joined_of (λ i. list_of_type lists.from lists.numbers (start_type index.now i))
        (numbers_below (start_count index.now))))
        (member set.words 0))
        × (length result.words ≡ 8) }
{
    let mut more = set;
    for i in 0..index.start_count() {
        more = with_list(more, lists, index.start_type(i));
    }
    more
}

// Finds the fruitful pairs of the start types.
pub fn start_pairs(lists: TypeLists, index: &TableIndex, addition: &TableIndex, words: &mut [u32])
    requires { (BothListed lists) × (StartsSmall index.now) × (StartsSmall addition.now) × (12288 ≤ length words.old) }
    ensures { (old add : List ℕ) (g h : Table) → Held large old index.now g
        → Held large add addition.now h
        → ListsOf (fruitful_of (unite large g h)) lists → set_of_eight_at words.new starts_at ≡ is_start (unite large g h) }
{
    let first = with_starts(Set8::empty(), lists.old, index);
    with_starts(first, lists.addition, addition).store(words, STARTS);
}

// Finds the pairs that reducing leaves.
pub fn pairs_left(old: &[u8], add: &[u8], v: United, lists: TypeLists, words: &mut [u32])
    requires { (Viewed old.now add.now v) × (BothListed lists) × (12288 ≤ length words.old) }
    ensures { ((u : Table) → Views old.now add.now v u → ListsOf (fruitful_of u) lists
        → set_of_eight_at words.old starts_at ≡ is_start u → set_of_eight_at words.new left_at ≡ is_left u)
        × KeptAround left_at 8 words.old words.new }
{
    let mut seen = Set8::load(words, STARTS);
    // The rounds follow from each other, so no count stands at the outset: the loop yields the set of the last by `break`.
    let left = loop {
        let next = seen.union(met_set(old, add, v, lists, seen));
        if seen.equal(next) {
            break seen;
        }
        seen = next;
    };
    left.store(words, LEFT);
}
