// Pieces of text, one after the other: bytes, numbers, types.
ghost use Rattle.std.specs.Prelude.{◌+◌, ◌≤◌, ◌<◌, [], ◌∷◌, length};
ghost use Rattle.grammar.specs.Listing.{decimal, type_text};
ghost use Rattle.writer.specs.Writing.{Put};

use writer::writing::copy;

// One byte.
pub fn put_byte(text: &mut [u8], at: usize, byte: u8) -> usize
    requires { at < length text.old }
    ensures { Put text.old at (byte ∷ []) text.new result }
{
    text[at] = byte;
    at + 1
}

// Some bytes.
pub fn put_bytes(text: &mut [u8], at: usize, bytes: &[u8]) -> usize
    requires { at + length bytes.now ≤ length text.old }
    ensures { Put text.old at bytes.now text.new result }
{
    copy(text, at, bytes);
    at + bytes.len()
}

// A number, its last digit after the others. Each digit is put by hand: the lines are promised byte by byte, and a `write!` to a slice
// promises none of the bytes.
pub fn put_decimal(text: &mut [u8], at: usize, k: usize) -> usize
    requires { at + length (decimal k) ≤ length text.old }
    ensures { Put text.old at (decimal k) text.new result }
{
    if k < 10 {
        return put_byte(text, at, (48 + k) as u8);
    }
    let last = put_decimal(text, at, k / 10);
    put_byte(text, last, (48 + k % 10) as u8)
}

// A type.
pub fn put_type(text: &mut [u8], at: usize, k: usize) -> usize
    requires { at + length (type_text k) ≤ length text.old }
    ensures { Put text.old at (type_text k) text.new result }
{
    let number = put_byte(text, at, b't');
    put_decimal(text, number, k)
}
