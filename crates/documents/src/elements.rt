// XML text: its elements are nodes, in the order of their tags.
ghost use Rattle.std.specs.Prelude.{◌≡◌, ◌+◌, ◌≤◌, ◌<◌, length, get_or};
ghost use Rattle.std.proofs.Math.Seq.{slice};
ghost use Rattle.grammar.specs.Limits.{input_limit};
ghost use Rattle.grammar.specs.LimitSets.{limits_of};
ghost use Rattle.grammar.specs.Lists.{same_numbers};
ghost use Rattle.grammar.specs.declared.Format.TheVariants.{XmlText};
ghost use Rattle.documents.specs.DocumentNodes.{DocumentReads};
ghost use Rattle.documents.specs.TextSteps.{element_answer, text_end, innermost, full_at, one_child_more, closes_at, InnermostHeld};

use crate::documents::DocumentIndex;
use crate::text::{Tag, tag_at};
use basis::limits::{CHILDREN, NAME};
use basis::names::is_name;
use grammar::{Refusal, SizeLimits};

// Whether an element may stand where so many nodes are read and so many elements open: its name is tried first.
#[tactic(auto, unfolding(crate::specs::TextSteps::element_answer))]
fn element_answer(
    limits: SizeLimits,
    classes: &[u8],
    name: &[u8],
    nodes: usize,
    depth: usize,
    full: bool,
) -> Result<(), Refusal>
    requires { 256 ≤ length classes.now }
    ensures { result ≡ element_answer (limits_of limits) classes.now name.now nodes depth full }
{
    if !is_name(classes, name) {
        return Err(Refusal::BadName);
    }
    if NAME < name.len() {
        return Err(Refusal::BadName);
    }
    if limits.nodes <= nodes {
        return Err(Refusal::BadTree);
    }
    if limits.levels <= depth {
        return Err(Refusal::BadTree);
    }
    if full {
        return Err(Refusal::BadTree);
    }
    Ok(())
}

// Whether the innermost open element has no room for a child, or the tree is complete. For each open element, outermost first, `places`
// has where it stands among the nodes.
fn is_full(shapes: &[u16], places: &[u16; 64], depth: usize, nodes: usize) -> bool
    requires { (depth ≤ 64) × (0 < depth → innermost places.now depth < length shapes.now) }
    ensures { result ≡ full_at shapes.now places.now depth nodes }
{
    if depth == 0 {
        return nodes != 0;
    }
    let parent = usize::from(places[depth - 1]);
    CHILDREN <= usize::from(shapes[parent])
}

// Counts a child of the innermost open element.
fn count_child(shapes: &mut [u16], places: &[u16; 64], depth: usize)
    requires { (depth ≤ 64) × (0 < depth → (innermost places.now depth < length shapes.old)
        × (get_or shapes.old (innermost places.now depth) 0 < 256)) }
    ensures { shapes.new ≡ one_child_more shapes.old places.now depth }
{
    if depth == 0 {
        return;
    }
    let parent = usize::from(places[depth - 1]);
    shapes[parent] += 1;
}

// Whether an end tag with this name closes the innermost open element.
fn closes(s: &[u8], index: &DocumentIndex, places: &[u16; 64], depth: usize, tag: &[u8]) -> bool
    requires { (depth ≤ 64) × (0 < depth → InnermostHeld s.now index.now.names index.now.sizes (innermost places.now depth)) }
    ensures { result ≡ closes_at s.now index.now.names index.now.sizes places.now depth tag.now }
{
    if depth == 0 {
        return false;
    }
    let open = usize::from(places[depth - 1]);
    let name = usize::from(index.names[open]);
    let end = name + usize::from(index.sizes[open]);
    tag == &s[name..end]
}

// What the end of a text says: no element may be open, and one must have come.
#[tactic(auto, unfolding(crate::specs::TextSteps::text_end))]
fn text_end(nodes: usize, depth: usize) -> Result<(), Refusal>
    ensures { result ≡ text_end nodes depth }
{
    if depth != 0 {
        return Err(Refusal::BadTree);
    }
    if nodes == 0 {
        return Err(Refusal::BadTree);
    }
    Ok(())
}

// The tags of a text, front to back. Whatever nodes the index had are gone.
pub fn read_tags(
    limits: SizeLimits,
    classes: &[u8],
    s: &[u8],
    index: &mut DocumentIndex,
) -> Result<(), Refusal>
    requires in_bounds { 256 ≤ length classes.now }
    requires s_len_bound { length s.now ≤ input_limit }
    ensures { DocumentReads (limits_of limits) classes.now XmlText s.now index.new result }
{
    index.nodes = 0;
    let mut at = 0;
    let mut places = [0u16; 64];
    let mut depth = 0;
    // Each tag tells where the text goes on behind it.
    while let Some(tag) = tag_at(s, at)? {
        match tag {
            Tag::End(from, to, next) => {
                if !closes(s, index, &places, depth, &s[from..to]) {
                    return Err(Refusal::BadEndTag);
                }
                depth -= 1;
                at = next;
            }
            Tag::Element(from, to, next, stays) => {
                let nodes = index.nodes;
                let full = is_full(&index.shapes, &places, depth, nodes);
                element_answer(limits, classes, &s[from..to], nodes, depth, full)?;
                count_child(&mut index.shapes, &places, depth);
                index.put_node(from, to, 0);
                places[depth] = nodes as u16;
                depth += usize::from(stays);
                at = next;
            }
        }
    }
    text_end(index.nodes, depth)
}
