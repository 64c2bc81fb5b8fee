// The fields of a sample: labels, start, rules, end.
ghost use Rattle.std.specs.Prelude.{◌+◌, ◌≤◌, length};
ghost use Rattle.grammar.specs.Limits.{input_limit};
ghost use Rattle.grammar.specs.Lists.{joined_of, numbers_below};
ghost use Rattle.writer.specs.Writing.{Puts};
ghost use Rattle.sequences.specs.SampleContents.{scratch_bytes};
ghost use Rattle.writer.specs.Tables.{TablePut, rest_bytes};
ghost use Rattle.sampling.specs.SampleTable.{rule_in, label_field, RulesHeld, start_bytes};
ghost use Rattle.paths.specs.SampleNodes.{KeysAt};

use crate::rules::put_rules;
use grammar::TooLarge;
use reader::tags::{LABEL_TAG, START_TAG, TABLE_END_TAG};
use writer::writing::put_field;

// Writes the labels: each first node's name.
pub fn put_labels(
    draft: &mut [u8],
    s: &[u8],
    names: &[u16],
    sizes: &[u16],
    keys: &[u16],
    firsts: &[u16],
    count: usize,
) -> Result<usize, TooLarge>
    requires { (input_limit ≤ length draft.old) × (count ≤ 128)
        × KeysAt s.now names.now sizes.now keys.now firsts.now count }
    ensures { Puts draft.old 0
        (joined_of (label_field s.now names.now sizes.now firsts.now) (numbers_below count))
        draft.new result }
{
    let mut end: usize = 0;
    for first in &firsts[..count] {
        let i = usize::from(*first);
        let from = usize::from(names[i]);
        let to = from + usize::from(sizes[i]);
        end = put_field(draft, end, LABEL_TAG, &s[from..to])?;
    }
    Ok(end)
}

// Writes the rules and the end.
fn put_rest(
    draft: &mut [u8],
    at: usize,
    scratch: &mut [u8],
    shapes: &[u16],
    parents: &[u16],
    types: &[u16],
    nodes: usize,
    labels: &[u8],
    count: usize,
) -> Result<usize, TooLarge>
    requires { (at ≤ input_limit) × (input_limit ≤ length draft.old) × (scratch_bytes ≤ length scratch.old)
        × RulesHeld shapes.now parents.now types.now labels.now nodes count }
    ensures { TablePut draft.old at
        (rule_in shapes.now parents.now types.now labels.now nodes) count
        (rest_bytes
        (rule_in shapes.now parents.now types.now labels.now nodes) count)
        draft.new result }
{
    let end = put_rules(
        draft, at, scratch, shapes, parents, types, nodes, labels, count,
    )?;
    put_field(draft, end, TABLE_END_TAG, &scratch[0..0])
}

// Writes the start, the rules and the end.
pub fn put_start(
    draft: &mut [u8],
    at: usize,
    scratch: &mut [u8],
    shapes: &[u16],
    parents: &[u16],
    types: &[u16],
    nodes: usize,
    labels: &[u8],
    count: usize,
) -> Result<usize, TooLarge>
    requires { (at ≤ input_limit) × (input_limit ≤ length draft.old) × (scratch_bytes ≤ length scratch.old)
        × RulesHeld shapes.now parents.now types.now labels.now nodes count }
    ensures { TablePut draft.old at
        (rule_in shapes.now parents.now types.now labels.now nodes) count
        (start_bytes
        (rule_in shapes.now parents.now types.now labels.now nodes) count)
        draft.new result }
{
    let root = [0u8; 1];
    let end = put_field(draft, at, START_TAG, &root)?;
    put_rest(
        draft, end, scratch, shapes, parents, types, nodes, labels, count,
    )
}
