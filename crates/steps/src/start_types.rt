// The start types of a result, a set of numbers in the words.
ghost use Rattle.std.specs.Prelude.{true, ◌≡◌, ℕ, ◌≤◌, ◌<◌, length, get_or};
ghost use Rattle.sets.specs.Sets.{set_of_eight_at, nothing, KeptAround};
ghost use Rattle.union.specs.Places.{starts_at, start_types_at};
ghost use Rattle.union.specs.Rounds.{puts};
ghost use Rattle.union.specs.View.{label_in};

use forms::label_sets::Numbers;
use sets::set::Set8;
use union::places::{START_TYPES, STARTS};
use union::united::United;

// Local: the numbers of the sets of the start pairs. `numbers` are those of the labels.
pub fn start_numbers(v: United, numbers: Numbers, words: &mut [u32])
    requires { (v.rules ≤ 256) × (12288 ≤ length words.old) × ((l : ℕ) → get_or numbers.of l 0 ≤ 128) }
    ensures { (set_of_eight_at words.new start_types_at
        ≡ puts (set_of_eight_at words.old starts_at) (λ p. get_or numbers.of (label_in v p) 0) nothing v.rules)
        × KeptAround start_types_at 8 words.old words.new }
{
    let starts = Set8::load(words, STARTS);
    let labels = v.labels;
    let mut set = Set8::empty();
    for p in 0..v.rules {
        if starts.has(p) {
            let label = usize::from(labels[p]);
            set = set.with(usize::from(numbers.of[label]));
        }
    }
    set.store(words, START_TYPES);
}

// Single-type: the numbers of the first sets.
pub fn first_numbers(n: usize, words: &mut [u32])
    requires { (n ≤ 128) × (12288 ≤ length words.old) }
    ensures { (set_of_eight_at words.new start_types_at ≡ puts (λ t. true) (λ t. t) nothing n)
        × KeptAround start_types_at 8 words.old words.new }
{
    let mut set = Set8::empty();
    for t in 0..n {
        set = set.with(t);
    }
    set.store(words, START_TYPES);
}
