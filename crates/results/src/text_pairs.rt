// The pairs of a union that are for text: those with a rule for text whose own content has alternatives.
ghost use Rattle.std.specs.Prelude.{◌≡◌, ℕ, ◌<◌, ◌≤◌, length, ◌&&◌};
ghost use Rattle.grammar.specs.Lists.{any_pass, numbers_below};
ghost use Rattle.grammar.specs.Table.{Table};
ghost use Rattle.theory.specs.Alternatives.{some_left};
ghost use Rattle.sets.specs.Sets.{member};
ghost use Rattle.union.specs.View.{Views, Viewed};
ghost use Rattle.union.specs.TypeLists.{ListsOf};
ghost use Rattle.union.specs.PairNumbers.{rule_numbered, fruitful_of, is_marking, is_text};

use reducing::type_lists::types_listed;
use sets::set::Set8;
use union::fruitful::rule_has;
use union::lists::TypeLists;
use union::text::rule_text;
use union::united::United;

// Whether a rule is for text and its content has alternatives over a set of types of the union.
fn rule_marks(old: &[u8], add: &[u8], v: United, i: usize, types: Set8) -> bool
    requires { (Viewed old.now add.now v) × (i < v.rules) }
    ensures { (u : Table) → Views old.now add.now v u
        → ((k : ℕ) → k < 256 → member types.words 0 k ≡ some_left (fruitful_of u) k) → result ≡ is_marking u (rule_numbered u i) }
{
    rule_text(old, add, v, i) && rule_has(old, add, v, i, types)
}

// The pairs with such a rule.
pub fn text_pairs(old: &[u8], add: &[u8], v: United, lists: TypeLists) -> Set8
    requires { Viewed old.now add.now v }
    ensures { ((u : Table) → Views old.now add.now v u → ListsOf (fruitful_of u) lists
        → member result.words 0 ≡ is_text u) × (length result.words ≡ 8) }
{
    let types = types_listed(lists);
    let firsts = v.firsts;
    let mut set = Set8::empty();
    for i in 0..v.rules {
        if rule_marks(old, add, v, i, types) {
            set = set.with(usize::from(firsts[i]));
        }
    }
    set
}

// Whether a set of pairs below a number has one of them.
pub fn has_text(set: Set8, text: Set8, pairs: usize) -> bool
    requires { pairs ≤ 256 }
    ensures { result ≡ any_pass (λ p. member set.words 0 p && member text.words 0 p) (numbers_below pairs) }
{
    (0..pairs).any(|p| set.has(p) && text.has(p))
}
