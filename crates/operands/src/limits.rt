// The limits of results, once for all code. crates/grammar/specs/Limits.antt has them for the definitions.
use basis::limits::{CONTENT, NESTING};

// Operands of a choice.
pub const OPERANDS: usize = 255;
// Bytes before the operands of a choice: its operator and their count.
pub const HEAD: usize = 2;
// The bytes of a content, and so many before its operands.
pub const HEADED: usize = HEAD + CONTENT;
// Those of a content for each level that contents nest, and one more: the bytes of a draft.
pub const DRAFT: usize = HEADED * (NESTING + 1);
// The first bytes of an operand, of which its fingerprint is made; each is folded into so many times what is folded before it, and
// fingerprints are the numbers below PRINTS.
pub const PRINTED: usize = 16;

pub const FOLD: usize = 31;

pub const PRINTS: usize = 65536;
// Words for the set of the result types among the operands of a row: a bit for every byte.
pub const TYPE_WORDS: usize = 8;
// Words for the register of a row at each level that contents nest: that set, and a note for each operand.
pub const REGISTER: usize = (TYPE_WORDS + OPERANDS) * NESTING;
