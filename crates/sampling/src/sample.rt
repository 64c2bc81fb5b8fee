// The sample of a document: one type for each path of names, written as a table.
ghost use Rattle.std.specs.Prelude.{◌≤◌, ◌≡◌, length, Ok};
ghost use Rattle.grammar.specs.Limits.{input_limit};
ghost use Rattle.grammar.specs.LimitSets.{limits_of};
ghost use Rattle.grammar.specs.Tree.{Tree};
ghost use Rattle.grammar.specs.ReadDocument.{tree_of};
ghost use Rattle.documents.specs.DocumentNodes.{nodes_in};
ghost use Rattle.sampling.specs.SampleTable.{SampleHeld, SampleReady, SampleDrafted, HoldsNodes};

use crate::fields::{put_labels, put_start};
use documents::documents::DocumentIndex;
use grammar::{SizeLimits, TooLarge};
use paths::labels::labels_of;
use paths::parents::parents_of;
use paths::paths::types_of;
use sequences::limits::SCRATCH;

// Writes the sample of nodes whose types are found, unless there are too many types.
fn write_sample(
    limits: SizeLimits,
    draft: &mut [u8],
    s: &[u8],
    names: &[u16],
    sizes: &[u16],
    shapes: &[u16],
    parents: &[u16],
    types: &[u16],
    firsts: &[u16],
    nodes: usize,
    count: usize,
) -> Result<usize, TooLarge>
    requires input_limit_in_bounds { (input_limit ≤ length draft.old)
        × SampleReady s.now names.now sizes.now shapes.now parents.now types.now firsts.now nodes count }
    ensures { (q : SampleHeld s.now names.now sizes.now shapes.now
        parents.now types.now firsts.now nodes count)
        → SampleDrafted (limits_of limits) q.whole.tree draft.old draft.new result }
{
    if limits.rules < count {
        return Err(TooLarge);
    }
    let keys = [0u16; 2048];
    let found = labels_of(s, names, sizes, &keys, firsts, count);
    let labels = found.of;
    let named = found.firsts;
    let mut scratch = [0u8; SCRATCH];
    let end = put_labels(draft, s, names, sizes, &keys, &named, found.count)?;
    put_start(
        draft,
        end,
        &mut scratch,
        shapes,
        parents,
        types,
        nodes,
        &labels,
        count,
    )
}

// The sample of a document as a table, from the draft's beginning.
pub fn sample_table(
    limits: SizeLimits,
    document: &[u8],
    index: &DocumentIndex,
    draft: &mut [u8],
) -> Result<usize, TooLarge>
    requires input_limit_in_bounds { (input_limit ≤ length draft.old) × HoldsNodes (limits_of limits) document.now index.now }
    ensures { (d : Tree) → tree_of (nodes_in document.now index.now) ≡ Ok d
        → SampleDrafted (limits_of limits) d draft.old draft.new result }
{
    let nodes = index.nodes;
    let parents = parents_of(&index.shapes, nodes);
    let types = types_of(document, &index.names, &index.sizes, &parents, nodes);
    let of = types.of;
    let firsts = types.firsts;
    write_sample(
        limits,
        draft,
        document,
        &index.names,
        &index.sizes,
        &index.shapes,
        &parents,
        &of,
        &firsts,
        nodes,
        types.count,
    )
}
