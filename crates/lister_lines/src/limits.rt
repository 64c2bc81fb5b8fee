// Bytes that hold the text of any table: its first line, and as many starts and rules as a table may have.
pub const TEXT: usize = 404000;
