// The fruitful pairs of a union: rounds, each over the pairs known so far, until one adds nothing.
ghost use Rattle.std.specs.Prelude.{◌≡◌, ◌≤◌, ◌<◌, length};
ghost use Rattle.grammar.specs.Lists.{is_in};
ghost use Rattle.grammar.specs.Table.{Table};
ghost use Rattle.grammar.specs.Normalise.{normalise};
ghost use Rattle.grammar.specs.Reduce.{fruitful};
ghost use Rattle.theory.specs.Alternatives.{has_alts};
ghost use Rattle.sets.specs.Sets.{member, set_of_eight_at};
ghost use Rattle.union.specs.View.{Views, Viewed};
ghost use Rattle.union.specs.Places.{known_at};
ghost use Rattle.union.specs.Rounds.{put_if, content_of_rule, types_with, after_round};

use crate::places::KNOWN;
use crate::productive::content_has;
use crate::united::United;
use sets::set::Set8;

// Whether the content of a rule has alternatives, over a set of types of the union.
pub fn rule_has(old: &[u8], add: &[u8], v: United, i: usize, types: Set8) -> bool
    requires { (Viewed old.now add.now v) × (i < v.rules) }
    ensures { (u : Table) → Views old.now add.now v u
        → result ≡ has_alts (member types.words 0) (content_of_rule u i) }
{
    let content_from = v.content_from;
    let content_to = v.content_to;
    let from = usize::from(content_from[i]);
    let to = usize::from(content_to[i]);
    if i < v.old_rules {
        return content_has(&old[from..to], 0, &types.words, 0).has;
    }
    content_has(&add[from..to], 0, &types.words, 4).has
}

// A set with one number more, or as it is.
pub fn put_if(on: bool, set: Set8, k: usize) -> Set8
    requires { k < 256 }
    ensures { (member result.words 0 ≡ put_if on k (member set.words 0)) × (length result.words ≡ 8) }
{
    if on {
        return set.with(k);
    }
    set
}

// The types that have a known pair.
fn types_with(v: United, known: Set8) -> Set8
    requires { v.rules ≤ 256 }
    ensures { (member result.words 0 ≡ types_with v (member known.words 0)) × (length result.words ≡ 8) }
{
    let firsts = v.firsts;
    let types = v.types;
    let mut set = Set8::empty();
    for i in 0..v.rules {
        let first = usize::from(firsts[i]);
        set = put_if(known.has(first), set, usize::from(types[i]));
    }
    set
}

// The known pairs with those that a round finds fruitful.
fn round(old: &[u8], add: &[u8], v: United, known: Set8) -> Set8
    requires { Viewed old.now add.now v }
    ensures { ((u : Table) → Views old.now add.now v u
        → member result.words 0 ≡ after_round u v (member known.words 0)) × (length result.words ≡ 8) }
{
    let types = types_with(v, known);
    let firsts = v.firsts;
    let mut next = known;
    for i in 0..v.rules {
        next = put_if(
            rule_has(old, add, v, i, types),
            next,
            usize::from(firsts[i]),
        );
    }
    next
}

// Finds the fruitful pairs.
pub fn fruitful_pairs(old: &[u8], add: &[u8], v: United, words: &mut [u32])
    requires { (Viewed old.now add.now v) × (12288 ≤ length words.old) }
    ensures { (u : Table) → Views old.now add.now v u
        → set_of_eight_at words.new known_at ≡ (λ p. is_in p (fruitful (normalise u))) }
{
    let mut known = Set8::empty();
    // The rounds follow from each other, so no count stands at the outset: the loop yields the set of the last by `break`.
    let found = loop {
        let next = round(old, add, v, known);
        if known.equal(next) {
            break known;
        }
        known = next;
    };
    found.store(words, KNOWN);
}
