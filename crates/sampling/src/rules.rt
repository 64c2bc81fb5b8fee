// The rules of a sample, in the order of the types.
ghost use Rattle.std.specs.Prelude.{◌≤◌, ◌<◌, length};
ghost use Rattle.grammar.specs.Limits.{input_limit};
ghost use Rattle.sequences.specs.SampleContents.{NodesHeld, scratch_bytes, content_in};
ghost use Rattle.writer.specs.Tables.{RulePuts, RulesPut};
ghost use Rattle.sampling.specs.SampleTable.{rule_in, RulesHeld};

use grammar::TooLarge;
use sequences::choices::make_content;
use sequences::texts::type_text;
use writer::writing::{put_field, rule_tag};

// Writes the rule of a type.
fn put_rule(
    draft: &mut [u8],
    at: usize,
    scratch: &mut [u8],
    parents: &[u16],
    types: &[u16],
    nodes: usize,
    k: usize,
    label: u8,
    text: bool,
) -> Result<usize, TooLarge>
    requires { (at ≤ input_limit) × (input_limit ≤ length draft.old) × (scratch_bytes ≤ length scratch.old) × (k < 256)
        × NodesHeld parents.now types.now nodes }
    ensures { RulePuts draft.old at
        (record { type = k; label = label; content = content_in parents.now types.now nodes k; text = text })
        draft.new result }
{
    let stop = make_content(scratch, parents, types, nodes, k)?;
    scratch[0] = k as u8;
    scratch[1] = label;
    put_field(draft, at, rule_tag(text), &scratch[0..stop])
}

// Writes the rules in the order of the types.
pub fn put_rules(
    draft: &mut [u8],
    at: usize,
    scratch: &mut [u8],
    shapes: &[u16],
    parents: &[u16],
    types: &[u16],
    nodes: usize,
    labels: &[u8],
    count: usize,
) -> Result<usize, TooLarge>
    requires { (at ≤ input_limit) × (input_limit ≤ length draft.old) × (scratch_bytes ≤ length scratch.old)
        × RulesHeld shapes.now parents.now types.now labels.now nodes count }
    ensures { RulesPut draft.old at
        (rule_in shapes.now parents.now types.now labels.now nodes) count
        draft.new result }
{
    let mut end = at;
    for k in 0..count {
        let l = labels[k];
        let text = type_text(shapes, types, nodes, k);
        end = put_rule(draft, end, scratch, parents, types, nodes, k, l, text)?;
    }
    Ok(end)
}
