// Which classes load.
ghost use Rattle.std.specs.Prelude.{◌≡◌, ◌≤◌, eqb, leb, length, get_or};
ghost use Rattle.grammar.specs.Lists.{any_pass, all_pass, numbers_below};
ghost use Rattle.grammar.specs.Names.{loads};

use crate::names::class_of;

// Each class is 0, 1 or 2.
fn none_above_two(classes: &[u8]) -> bool
    ensures { result ≡ all_pass (λ c. leb c 2) classes.now }
{
    classes.iter().all(|&class| class <= 2)
}

// At least one is 2.
fn some_two(classes: &[u8]) -> bool
    ensures { result ≡ any_pass (λ c. eqb c 2) classes.now }
{
    classes.iter().any(|&class| class == 2)
}

// Each byte below `end` has 0.
fn zero_below(classes: &[u8], end: usize) -> bool
    requires { end ≤ length classes.now }
    ensures { result ≡ all_pass (λ b. eqb (get_or classes.now b 0) 0) (numbers_below end) }
{
    classes[..end].iter().all(|&class| class == 0)
}

// Each of these bytes has 0.
fn zero_for(classes: &[u8], bytes: &[u8]) -> bool
    requires { 256 ≤ length classes.now }
    ensures { result ≡ all_pass (λ b. eqb (get_or classes.now b 0) 0) bytes.now }
{
    bytes.iter().all(|&b| class_of(classes, b) == 0)
}

// The classes load.
#[tactic(auto, using(crate::proofs::LoadedClasses::by_rules))]
pub fn classes_load(classes: &[u8]) -> bool
    ensures { result ≡ loads classes.now }
{
    if classes.len() != 256 {
        return false;
    }
    if !none_above_two(classes) {
        return false;
    }
    if !some_two(classes) {
        return false;
    }
    if !zero_below(classes, 0x21) {
        return false;
    }
    zero_for(classes, b"()|,*+?!<>/=")
}
