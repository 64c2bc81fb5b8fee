// The limits of the bytes in which a rule is made. specs/SampleContents.antt has them for the contracts.
use basis::limits::CONTENT;

// A rule: its type, its label and its content.
pub const RULE: usize = 2 + CONTENT;
// Where the operands of a content begin, after two bytes more for a choice, and where they end at most.
pub const OPERANDS_FROM: usize = 4;

pub const OPERANDS_END: usize = OPERANDS_FROM + CONTENT;
// Bytes for a rule and one child sequence more.
pub const SCRATCH: usize = 2048;
