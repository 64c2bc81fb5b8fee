// Where the sets of a widening stand in the lent words from step to step, in room for eight words each. The sets that are the types
// of the result stand in the words before them.
pub const SETS: usize = 2048;

// The fruitful pairs.
pub const KNOWN: usize = 2048;

// Those of the start types.
pub const STARTS: usize = 2056;

// The pairs that reducing leaves.
pub const LEFT: usize = 2064;

// The start types of the result.
pub const START_TYPES: usize = 2072;

// The labels that the result uses.
pub const USED: usize = 2080;
