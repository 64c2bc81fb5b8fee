// Sets of pairs in the lent words, eight words each, one after the other: the types of a result, and the worklist of those to come.
ghost use Rattle.std.specs.Prelude.{not, List, [], ◌∷◌, ◌++◌, ◌≡◌, ◌≤◌, length};
ghost use Rattle.grammar.specs.Lists.{keep, distinct, place, is_in, same_numbers};
ghost use Rattle.grammar.specs.ReadTable.{is_empty};
ghost use Rattle.grammar.specs.SingleTypeForm.{TypeSet};
ghost use Rattle.sets.specs.Sets.{member};
ghost use Rattle.forms.specs.SetWords.{Ascending, SetsHeld, SetsCounted};
ghost use Rattle.forms.specs.Worklist.{SetRoom, Few};

use sets::set::Set8;

// The number of a set among those that stand in the words; how many they are, where it is not there.
pub fn set_number(words: &[u32], count: usize, set: Set8) -> usize
    requires { SetRoom 128 words.now count }
    ensures { ((sets : List TypeSet) (s : TypeSet) → SetsHeld words.now sets → count ≡ length sets
        → member set.words 0 ≡ (λ p. is_in p s) → Ascending s → result ≡ place same_numbers s sets) × (result ≤ count) }
{
    for i in 0..count {
        if Set8::load(words, 8 * i).equal(set) {
            return i;
        }
    }
    count
}

// Lays a set down after the others, and says how many they are then; none, where they would be more than `most`.
fn put_set(most: usize, words: &mut [u32], count: usize, set: Set8) -> Option<usize>
    requires { (most ≤ 128) × SetRoom most words.old count }
    ensures { ((sets : List TypeSet) (s : TypeSet) → SetsHeld words.old sets → count ≡ length sets
        → member set.words 0 ≡ (λ p. is_in p s) → Ascending s
        → SetsCounted most words.new (sets ++ (s ∷ [])) result) × (Few most result) }
{
    if count == most {
        return None;
    }
    set.store(words, 8 * count);
    Some(count + 1)
}

// The same unless it is empty.
pub fn put_some(most: usize, words: &mut [u32], count: usize, set: Set8) -> Option<usize>
    requires { (most ≤ 128) × SetRoom most words.old count }
    ensures { ((sets : List TypeSet) (s : TypeSet) → SetsHeld words.old sets → count ≡ length sets
        → member set.words 0 ≡ (λ p. is_in p s) → Ascending s
        → SetsCounted most words.new (sets ++ keep (λ t. not (is_empty t)) (s ∷ [])) result) × (Few most result) }
{
    if set.is_empty() {
        return Some(count);
    }
    put_set(most, words, count, set)
}

// The same unless it is there.
pub fn add_set(most: usize, words: &mut [u32], count: usize, set: Set8) -> Option<usize>
    requires { (most ≤ 128) × SetRoom most words.old count }
    ensures { ((sets : List TypeSet) (s : TypeSet) → SetsHeld words.old sets → count ≡ length sets
        → member set.words 0 ≡ (λ p. is_in p s) → Ascending s → distinct same_numbers sets ≡ sets
        → SetsCounted most words.new (distinct same_numbers (sets ++ (s ∷ []))) result) × (Few most result) }
{
    if set_number(words, count, set) < count {
        return Some(count);
    }
    put_set(most, words, count, set)
}
