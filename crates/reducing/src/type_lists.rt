// The fruitful pairs of a union by type: for each type of the two tables a list.
ghost use Rattle.std.specs.Prelude.{◌≡◌, true, false, List, [], ◌∷◌, ℕ, ◌+◌, ◌<◌, ◌≤◌, length, take};
ghost use Rattle.grammar.specs.Lists.{is_in};
ghost use Rattle.grammar.specs.Table.{Table};
ghost use Rattle.grammar.specs.Normalise.{normalise};
ghost use Rattle.grammar.specs.Reduce.{fruitful};
ghost use Rattle.theory.specs.Alternatives.{only_if, some_left};
ghost use Rattle.sets.specs.Sets.{member, set_of_eight_at};
ghost use Rattle.union.specs.View.{Views};
ghost use Rattle.union.specs.Places.{known_at};
ghost use Rattle.union.specs.PairNumbers.{fruitful_of};
ghost use Rattle.union.specs.TypeLists.{ListsOf};
ghost use Rattle.reducing.specs.PairsListed.{is_pair, pairs_in, ListsFilled, Appends, Earlier, ListsEach};

use sets::set::Set8;
use union::fruitful::put_if;
use union::lists::{Lists, TypeLists};
use union::places::KNOWN;
use union::united::United;

// Whether the rule of this number is the first of a known pair of the type.
fn is_pair(v: United, known: Set8, ty: usize, p: usize) -> bool
    requires { p < 256 }
    ensures { result ≡ is_pair v (member known.words 0) ty p }
{
    let types = v.types;
    let firsts = v.firsts;
    usize::from(types[p]) == ty && usize::from(firsts[p]) == p && known.has(p)
}

// Lays a pair's number down after the others, if it is a known pair of the type.
fn append_pair(
    v: United,
    known: Set8,
    ty: usize,
    p: usize,
    numbers: &mut [u8],
    count: usize,
) -> usize
    requires { (p < 256) × (ListsFilled numbers.old count)
        × (is_pair v (member known.words 0) ty p ≡ true → is_in p (take count numbers.old) ≡ false) }
    ensures { Appends (take count numbers.old) (only_if (is_pair v (member known.words 0) ty p) (p ∷ []))
        numbers.new result }
{
    if is_pair(v, known, ty, p) {
        numbers[count] = p as u8;
        return count + 1;
    }
    count
}

// Lays down the known pairs of a type after those of earlier types.
fn append_pairs(v: United, known: Set8, ty: usize, numbers: &mut [u8], count: usize) -> usize
    requires { (v.rules ≤ 256) × (ListsFilled numbers.old count) × (Earlier v ty (take count numbers.old)) }
    ensures { Appends (take count numbers.old) (pairs_in v (member known.words 0) ty) numbers.new result }
{
    let mut more = count;
    for p in 0..v.rules {
        more = append_pair(v, known, ty, p, numbers, more);
    }
    more
}

// The known pairs of the 128 types from `base` on.
fn lists_from(v: United, known: Set8, base: usize) -> Lists
    requires { (v.rules ≤ 256) × (base ≤ 128) }
    ensures { ListsEach (λ k. pairs_in v (member known.words 0) (base + k)) result }
{
    let mut from = [0u16; 129];
    let mut numbers = [0u8; 256];
    let mut count: usize = 0;
    for k in 0..128 {
        count = append_pairs(v, known, base + k, &mut numbers, count);
        from[k + 1] = count as u16;
    }
    Lists { from, numbers }
}

// The fruitful pairs of each type.
pub fn fruitful_lists(v: United, words: &[u32]) -> TypeLists
    requires { (v.rules ≤ 256) × (12288 ≤ length words.now) }
    ensures { (old add : List ℕ) (u : Table) → Views old add v u
        → set_of_eight_at words.now known_at ≡ (λ p. is_in p (fruitful (normalise u))) → ListsOf (fruitful_of u) result }
{
    let known = Set8::load(words, KNOWN);
    let old = lists_from(v, known, 0);
    let addition = lists_from(v, known, 128);
    TypeLists { old, addition }
}

// Whether a type of the union has a list that is not empty.
fn is_listed(lists: TypeLists, k: usize) -> bool
    requires { k < 256 }
    ensures { (of : ℕ → List ℕ) → ListsOf of lists → result ≡ some_left of k }
{
    if k < 128 {
        let from = lists.old.from;
        return from[k] < from[k + 1];
    }
    let from = lists.addition.from;
    from[k - 128] < from[k - 127]
}

// The types of the union that have a list that is not empty.
pub fn types_listed(lists: TypeLists) -> Set8
    ensures { ((of : ℕ → List ℕ) → ListsOf of lists → (k : ℕ) → k < 256 → member result.words 0 k ≡ some_left of k)
        × (length result.words ≡ 8) }
{
    let mut set = Set8::empty();
    for k in 0..256 {
        set = put_if(is_listed(lists, k), set, k);
    }
    set
}
