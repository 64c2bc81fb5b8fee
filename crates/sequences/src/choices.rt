// The content of a type: the choice of the child sequences of its nodes.
ghost use Rattle.std.specs.Prelude.{◌≤◌, [], length};
ghost use Rattle.grammar.specs.Lists.{numbers_below};
ghost use Rattle.theory.specs.Alternatives.{gathered};
ghost use Rattle.operands.specs.Drafts.{GathersIn};
ghost use Rattle.sequences.specs.SampleContents.{NodesHeld, sequences_among, no_sequences, scratch_bytes, content_in, ContentMade};

use crate::limits::{OPERANDS_END, OPERANDS_FROM, RULE};
use crate::sequences::put_sequence;
use grammar::TooLarge;
use operands::drafts::{Gathering, OperandRow, finish, settle};
use operands::limits::OPERANDS;

// Gathers the child sequences of the nodes of a type.
fn gather(
    scratch: &mut [u8],
    parents: &[u16],
    types: &[u16],
    nodes: usize,
    k: usize,
) -> Result<Gathering, TooLarge>
    requires { (scratch_bytes ≤ length scratch.old) × NodesHeld parents.now types.now nodes }
    ensures { GathersIn scratch.new no_sequences
        (gathered [] (sequences_among parents.now types.now nodes k (numbers_below nodes))) result }
{
    let mut notes = [0u32; OPERANDS];
    let mut count: usize = 0;
    let mut end: usize = OPERANDS_FROM;
    for i in 0..nodes {
        if usize::from(types[i]) != k {
            continue;
        }
        let fresh = put_sequence(scratch, end, parents, types, nodes, i);
        let row = OperandRow {
            base: OPERANDS_FROM,
            count,
            end,
            limit: OPERANDS_END,
        };
        let gathered = settle(scratch, row, fresh, 0, &mut notes)?;
        count = gathered.count;
        end = gathered.end;
    }
    Ok(Gathering {
        next: 0,
        count,
        end,
    })
}

// Makes the content of a type from the second place on: the choice of its nodes' child sequences.
pub fn make_content(
    scratch: &mut [u8],
    parents: &[u16],
    types: &[u16],
    nodes: usize,
    k: usize,
) -> Result<usize, TooLarge>
    requires { (scratch_bytes ≤ length scratch.old) × NodesHeld parents.now types.now nodes }
    ensures { ContentMade scratch.new (content_in parents.now types.now nodes k) result }
{
    let gathered = gather(scratch, parents, types, nodes, k)?;
    let stop = finish(scratch, 2, gathered.count, gathered.end);
    if RULE < stop {
        return Err(TooLarge);
    }
    Ok(stop)
}
