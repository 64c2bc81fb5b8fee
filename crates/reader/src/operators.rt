// The numbers of the operators of contents, once for all code. crates/grammar/specs/ReadContent.antt has them for the definitions.
pub const NONE: usize = 0;

pub const EMPTY: usize = 1;

pub const TYPE: usize = 2;

pub const SEQUENCE: usize = 3;

pub const CHOICE: usize = 4;

pub const ANY_NUMBER: usize = 5;

pub const ONE_OR_MORE: usize = 6;

pub const OPTIONAL: usize = 7;

// The bytes that they are written as.
pub const NONE_BYTE: u8 = NONE as u8;

pub const EMPTY_BYTE: u8 = EMPTY as u8;

pub const TYPE_BYTE: u8 = TYPE as u8;

pub const SEQUENCE_BYTE: u8 = SEQUENCE as u8;

pub const CHOICE_BYTE: u8 = CHOICE as u8;

pub const ONE_OR_MORE_BYTE: u8 = ONE_OR_MORE as u8;

pub const OPTIONAL_BYTE: u8 = OPTIONAL as u8;
