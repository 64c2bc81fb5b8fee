// Sets built from numbers and asked, by value and in lent words. For tests: no call of the product uses them.
// A number counts by its remainder by 128, and a base by its remainder by 4, so that a caller from C can break nothing.
#![tactic(auto)]

ghost use Rattle.std.specs.Prelude.{◌≡◌, ◌+◌, ◌%◌, ◌≤◌, length, replicate};
ghost use Rattle.grammar.specs.Lists.{is_in};
ghost use Rattle.sets.specs.Sets.{member, put_all, HasJust, OthersKept};
ghost use Rattle.built_sets.specs.Remainders.{remainders};

use sets::set::Set4;
use sets::words::{has, put};

// The membership test by value, alone.
#[unsafe(no_mangle)]
pub extern "C" fn has_by_value(words: &[u32; 4], k: usize) -> bool
    ensures { result ≡ member words.now 0 (k % 128) }
{
    let set = Set4 { words: *words };
    set.has(k % 128)
}

// The membership test in lent words, alone.
#[unsafe(no_mangle)]
pub extern "C" fn has_in_words(words: &[u32; 8], base: usize, k: usize) -> bool
    ensures { result ≡ member words.now (base % 4) (k % 128) }
{
    has(words, base % 4, k % 128)
}

// The set of the numbers.
#[tactic(auto, using(crate::proofs::RemainderLaws::putting), unfolding(sets::specs::Sets::put_all))]
fn built_set(numbers: &[usize]) -> Set4
    ensures { result.words ≡ put_all (replicate 4 0) 0 (remainders numbers.now) }
{
    let mut set = Set4::empty();
    for n in numbers {
        set = set.with(*n % 128);
    }
    set
}

// Whether the set built from the numbers has k.
#[unsafe(no_mangle)]
pub extern "C" fn built_by_value(numbers: &[usize], k: usize) -> bool
    ensures { result ≡ is_in (k % 128) (remainders numbers.now) }
{
    let set = built_set(numbers);
    set.has(k % 128)
}

// Puts the numbers into the set at base.
#[tactic(auto, using(crate::proofs::RemainderLaws::putting), unfolding(sets::specs::Sets::put_all))]
fn put_all(words: &mut [u32], base: usize, numbers: &[usize])
    requires { base + 4 ≤ length words.old }
    ensures { words.new ≡ put_all words.old base (remainders numbers.now) }
{
    for n in numbers {
        put(words, base, *n % 128);
    }
}

// Builds the set of the numbers at base, and says whether it has k.
#[unsafe(no_mangle)]
pub extern "C" fn built_in_words(
    numbers: &[usize],
    k: usize,
    words: &mut [u32; 8],
    base: usize,
) -> bool
    ensures answer { result ≡ is_in (k % 128) (remainders numbers.now) }
    ensures set { HasJust words.new (base % 4) 4 (remainders numbers.now) }
    ensures others { OthersKept (base % 4) words.old words.new }
{
    let at = base % 4;
    let none = Set4::empty();
    none.store(words, at);
    put_all(words, at, numbers);
    has(words, at, k % 128)
}
