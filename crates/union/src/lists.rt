// Numbers by type: for each type of one table a list, one after the other.

// The list of type k stands from `from[k]` up to `from[k + 1]`. Bytes and pairs of bytes only: the contracts and the steps above take
// the lists by value.
#[derive(Clone, Copy)]
pub struct Lists {
    pub from: [u16; 129],
    pub numbers: [u8; 256],
}

// The lists of the types of the old table and of the addition, by value too.
#[derive(Clone, Copy)]
pub struct TypeLists {
    pub old: Lists,
    pub addition: Lists,
}
