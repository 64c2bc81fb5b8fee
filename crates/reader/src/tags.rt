// The tags of fields, once for all code. crates/grammar/specs has them for the definitions (ReadTable, ReadDocument).

// Of a table.
pub const LABEL_TAG: u8 = 0x10;

pub const START_TAG: u8 = 0x11;

pub const RULE_TAG: u8 = 0x12;

pub const TEXT_RULE_TAG: u8 = 0x13;

pub const TABLE_END_TAG: u8 = 0x1F;

// Of a document.
pub const NODE_TAG: u8 = 0x30;

pub const TEXT_NODE_TAG: u8 = 0x32;

pub const DOCUMENT_END_TAG: u8 = 0x3F;
