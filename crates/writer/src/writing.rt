// Writing fields of a table into a draft.
ghost use Rattle.std.specs.Prelude.{◌+◌, ◌≤◌, ◌<◌, ◌≡◌, length};
ghost use Rattle.std.proofs.Math.Seq.{paste};
ghost use Rattle.grammar.specs.Limits.{input_limit};
ghost use Rattle.grammar.specs.Fields.{field_bytes};
ghost use Rattle.grammar.specs.ReadTable.{rule_tag};
ghost use Rattle.writer.specs.Writing.{Puts};

use basis::limits::INPUT;
use grammar::TooLarge;
use reader::tags::{RULE_TAG, TEXT_RULE_TAG};

// The bytes at a place.
pub fn copy(draft: &mut [u8], at: usize, value: &[u8])
    requires { at + length value.now ≤ length draft.old }
    ensures { draft.new ≡ paste draft.old at value.now (length value.now) }
{
    draft[at..at + value.len()].copy_from_slice(value);
}

// The tag of a rule, for text or not.
pub fn rule_tag(text: bool) -> u8
    ensures { result ≡ rule_tag text }
{
    if text {
        return TEXT_RULE_TAG;
    }
    RULE_TAG
}

// One field after what is written.
pub fn put_field(draft: &mut [u8], at: usize, tag: u8, value: &[u8]) -> Result<usize, TooLarge>
    requires { (at ≤ input_limit) × (input_limit ≤ length draft.old) }
    ensures { Puts draft.old at (field_bytes tag value.now) draft.new result }
{
    let size = value.len();
    if INPUT - at < 3 {
        return Err(TooLarge);
    }
    if INPUT - at - 3 < size {
        return Err(TooLarge);
    }
    draft[at] = tag;
    draft[at + 1] = (size / 256) as u8;
    draft[at + 2] = (size % 256) as u8;
    copy(draft, at + 3, value);
    Ok(at + 3 + size)
}
