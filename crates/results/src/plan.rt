// What the rules of a result are written from.
use sets::set::Set8;
use union::lists::TypeLists;
use union::united::United;

// The kind of the result.
#[derive(Clone, Copy)]
pub enum Kind {
    Local,
    SingleType,
}

// Beside the bytes of the two tables and the sets in the words: the union, how many labels it has, its fruitful pairs by type, its pairs
// for text, how many sets there are, and the kind.
#[derive(Clone, Copy)]
pub struct Plan {
    pub union: United,
    pub labels: usize,
    pub lists: TypeLists,
    pub text: Set8,
    pub count: usize,
    pub kind: Kind,
}
