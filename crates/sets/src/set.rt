// A set of numbers below 32 * WORDS, by value.
ghost use Rattle.std.specs.Prelude.{◌≡◌, ◌+◌, ◌*◌, ◌<◌, ◌≤◌, length, replicate};
ghost use Rattle.sets.specs.Sets.{member, put_at, union_of, words_at, store_at, Empties, Compares};

#[derive(Clone, Copy, Debug, PartialEq, Eq)]
pub struct Set<const WORDS: usize> {
    pub words: [u32; WORDS],
}

// Of numbers below 128.
pub type Set4 = Set<4>;

// Of numbers below 256.
pub type Set8 = Set<8>;

impl<const WORDS: usize> Set<WORDS> {
    pub fn empty() -> Self
        ensures { result.words ≡ replicate WORDS 0 }
    {
        Set { words: [0; WORDS] }
    }

    pub fn has(self, k: usize) -> bool
        requires { k < 32 * WORDS }
        ensures { result ≡ member self.entry.words 0 k }
    {
        (self.words[k / 32] >> (k % 32)) % 2 == 1
    }

    pub fn with(mut self, k: usize) -> Self
        requires { k < 32 * WORDS }
        ensures { result.words ≡ put_at self.entry.words 0 k }
    {
        self.words[k / 32] |= 1 << (k % 32);
        self
    }

    // Adds each number of the other set.
    pub fn insert_all(&mut self, other: &Self)
        ensures { self.new.words ≡ union_of self.old.words other.now.words }
    {
        for i in 0..WORDS {
            self.words[i] |= other.words[i];
        }
    }

    pub fn union(mut self, other: Self) -> Self
        ensures { result.words ≡ union_of self.entry.words other.entry.words }
    {
        self.insert_all(&other);
        self
    }

    pub fn equal(self, other: Self) -> bool
        ensures { Compares self.entry.words other.entry.words result }
    {
        self == other
    }

    pub fn is_empty(self) -> bool
        ensures { Empties self.entry.words result }
    {
        self.equal(Set::empty())
    }

    // The set that stands at base in lent words.
    pub fn load(words: &[u32], base: usize) -> Self
        requires { base + WORDS ≤ length words.now }
        ensures { result.words ≡ words_at words.now base WORDS }
    {
        let mut set = Set { words: [0; WORDS] };
        set.words.copy_from_slice(&words[base..base + WORDS]);
        set
    }

    // Lays the set down at base.
    pub fn store(self, words: &mut [u32], base: usize)
        requires { base + WORDS ≤ length words.old }
        ensures { words.new ≡ store_at words.old base self.entry.words }
    {
        words[base..base + WORDS].copy_from_slice(&self.words);
    }
}
