// Numbering by first visit: the place of a node among those listed, told apart by a key and their names.
ghost use Rattle.std.specs.Prelude.{◌+◌, ◌≤◌, ◌<◌, ◌≡◌, ◌⊎◌, take};
ghost use Rattle.grammar.specs.Lists.{place};
ghost use Rattle.paths.specs.SampleNodes.{same_key, KeyAt, KeysAt};

use basis::names::same_name;

// Equal keys and equal names.
fn same_key(s: &[u8], names: &[u16], sizes: &[u16], keys: &[u16], i: usize, j: usize) -> bool
    requires { KeyAt s.now names.now sizes.now keys.now i × KeyAt s.now names.now sizes.now keys.now j }
    ensures { result ≡ same_key s.now names.now sizes.now keys.now i j }
{
    if keys[i] != keys[j] {
        return false;
    }
    let a = names[i] as usize;
    let b = names[j] as usize;
    let a_end = a + sizes[i] as usize;
    let b_end = b + sizes[j] as usize;
    same_name(&s[a..a_end], &s[b..b_end])
}

// The place of the first of the listed nodes with an equal key and name, or past them.
pub fn find(
    s: &[u8],
    names: &[u16],
    sizes: &[u16],
    keys: &[u16],
    firsts: &[u16],
    count: usize,
    i: usize,
) -> usize
    requires { KeyAt s.now names.now sizes.now keys.now i
        × KeysAt s.now names.now sizes.now keys.now firsts.now count }
    ensures found { result ≡ place (same_key s.now names.now sizes.now keys.now) i
        (take count firsts.now) }
    ensures few { result ≤ count }
{
    for (t, first) in firsts[..count].iter().enumerate() {
        if same_key(s, names, sizes, keys, i, usize::from(*first)) {
            return t;
        }
    }
    count
}

// How many are listed, with one more where its place is past them.
pub fn next_count(count: usize, place: usize) -> usize
    requires { count < 2048 }
    ensures { ((place ≡ count) × (result ≡ count + 1)) ⊎ ((place ≡ count → ⊥) × (result ≡ count)) }
{
    if place == count {
        return count + 1;
    }
    count
}
