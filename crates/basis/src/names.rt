// Names: which byte strings are names, and when two are equal.
ghost use Rattle.std.specs.Prelude.{◌≡◌, ◌≤◌, eqb, length, get_or};
ghost use Rattle.grammar.specs.Names.{is_name, is_capital, small_letter, same_name};

// The class of a byte.
pub fn class_of(classes: &[u8], b: u8) -> u8
    requires { 256 ≤ length classes.now }
    ensures { result ≡ get_or classes.now b 0 }
{
    classes[usize::from(b)]
}

// The first byte is of class 2, and no byte is of class 0.
pub fn is_name(classes: &[u8], s: &[u8]) -> bool
    requires { 256 ≤ length classes.now }
    ensures { result ≡ is_name classes.now s.now }
{
    match s.split_first() {
        None => false,
        Some((&first, rest)) => {
            class_of(classes, first) == 2 && rest.iter().all(|&b| class_of(classes, b) != 0)
        }
    }
}

// A byte from A to Z.
#[tactic(auto, unfolding(grammar::specs::Names::is_capital))]
fn is_capital(b: u8) -> bool
    ensures { result ≡ is_capital b }
{
    65 <= b && b <= 90
}

// A to Z become a to z; every other byte stays.
#[tactic(auto, unfolding(grammar::specs::Names::small_letter, grammar::specs::Names::is_capital))]
fn small_letter(b: u8) -> u8
    ensures { result ≡ small_letter b }
{
    if is_capital(b) {
        return b + 32;
    }
    b
}

// The same byte, or one letter as a capital and as a small letter. These agree in their last five bits, so that most other bytes are told
// apart without looking for letters.
fn same_letter(a: u8, b: u8) -> bool
    ensures { result ≡ eqb (small_letter a) (small_letter b) }
{
    if a == b {
        return true;
    }
    if a % 32 != b % 32 {
        return false;
    }
    small_letter(a) == small_letter(b)
}

// Names are equal when they agree after A to Z become a to z.
pub fn same_name(a: &[u8], b: &[u8]) -> bool
    ensures { result ≡ same_name a.now b.now }
{
    a.len() == b.len() && a.iter().zip(b).all(|(&x, &y)| same_letter(x, y))
}
