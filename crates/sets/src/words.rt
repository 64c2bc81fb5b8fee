// Sets that stand in lent words, each from a word `base` on.
ghost use Rattle.std.specs.Prelude.{◌≡◌, ◌+◌, ◌/◌, ◌<◌, length};
ghost use Rattle.sets.specs.Sets.{member, put_at};

// Whether k is in the set at base.
pub fn has(words: &[u32], base: usize, k: usize) -> bool
    requires { base + k / 32 < length words.now }
    ensures { result ≡ member words.now base k }
{
    (words[base + k / 32] >> (k % 32)) % 2 == 1
}

// Puts k into the set at base.
pub fn put(words: &mut [u32], base: usize, k: usize)
    requires { base + k / 32 < length words.old }
    ensures { words.new ≡ put_at words.old base k }
{
    let at = base + k / 32;
    words[at] = words[at] | (1u32 << (k % 32));
}
