// Documents of either format; and document files: nodes parent before children, left to right, then the end.
ghost use Rattle.std.specs.Prelude.{true, ◌≡◌, ◌-◌, ◌≤◌, ◌<◌, eqb, length, drop, set};
ghost use Rattle.std.proofs.Math.Seq.{slice};
ghost use Rattle.grammar.specs.Limits.{input_limit};
ghost use Rattle.grammar.specs.LimitSets.{limits_of};
ghost use Rattle.grammar.specs.Fields.{fields_of};
ghost use Rattle.grammar.specs.Documents.{format_numbered};
ghost use Rattle.grammar.specs.ReadDocument.{node_tag, is_node_tag};
ghost use Rattle.grammar.specs.declared.Format.TheVariants.{DocumentFile};
ghost use Rattle.documents.specs.DocumentNodes.{shape_of, with_node_at, DocumentReads};
ghost use Rattle.documents.specs.DocumentSteps.{end_answer, bad_counts, rest_of, rest_with, NodeSays, StepSays, Open, Closed, LevelsAfter};

use crate::elements::read_tags;
use basis::limits::{CHILDREN, INPUT, NAME};
use basis::names::is_name;
use grammar::{Format, Refusal, SizeLimits};
use reader::fields::{FieldAt, field_at};
use reader::tags::{DOCUMENT_END_TAG, NODE_TAG, TEXT_NODE_TAG};

// The format that a number stands for in calls from C: 1 XML text, any other number a document file.
#[tactic(auto, unfolding(grammar::specs::Documents::format_numbered))]
pub fn format_numbered(number: u32) -> Format
    ensures { result ≡ format_numbered number }
{
    if number == 1 {
        Format::XmlText
    } else {
        Format::DocumentFile
    }
}

// A field that is a node: where its name begins and ends, and its shape.
#[derive(Clone, Copy)]
struct NodeField {
    from: usize,
    to: usize,
    shape: usize,
}

// The nodes of a document in file order: where each name stands, and the shape of each: how many children it has, and 256 more if it
// holds text.
#[derive(Clone, Copy)]
pub struct DocumentIndex {
    pub names: [u16; 2048],
    pub sizes: [u16; 2048],
    pub shapes: [u16; 2048],
    pub nodes: usize,
}

impl DocumentIndex {
    // No nodes.
    pub fn new() -> Self
        ensures { result.nodes ≡ 0 }
    {
        Self {
            names: [0; 2048],
            sizes: [0; 2048],
            shapes: [0; 2048],
            nodes: 0,
        }
    }

    // Stores a node behind those that it has.
    pub fn put_node(&mut self, from: usize, to: usize, shape: usize)
        requires from_le_to { (from ≤ to) × (to ≤ input_limit) × (shape < 512) }
        requires nodes_in_bounds { self.old.nodes < 2048 }
        ensures { self.new ≡ with_node_at self.old from to shape }
    {
        // Read once: behind each store it would be read from memory anew.
        let place = self.nodes;
        self.names[place] = from as u16;
        self.sizes[place] = (to - from) as u16;
        self.shapes[place] = shape as u16;
        self.nodes = place + 1;
    }
}

// What an end field says, with a value of `size` bytes, while `depth` levels are open, and `left` bytes after it.
#[tactic(auto, unfolding(crate::specs::DocumentSteps::end_answer))]
fn end_answer(size: usize, depth: usize, left: usize) -> Result<(), Refusal>
    ensures { result ≡ end_answer size depth left }
{
    if size != 0 {
        return Err(Refusal::BadField);
    }
    if depth != 0 {
        return Err(Refusal::BadTree);
    }
    if left != 0 {
        return Err(Refusal::BytesAfterEnd);
    }
    Ok(())
}

// The node is one too many, has too many children, lies too deep or follows a complete tree.
fn bad_node(limits: SizeLimits, nodes: usize, children: usize, depth: usize) -> bool
    ensures { result ≡ bad_counts (limits_of limits) nodes children depth }
{
    limits.nodes <= nodes || CHILDREN < children || limits.levels < depth || depth == 0
}

// A node's tag, without or with text.
#[tactic(auto, unfolding(grammar::specs::ReadDocument::is_node_tag))]
fn is_node_tag(tag: u8) -> bool
    ensures { result ≡ is_node_tag tag }
{
    tag == NODE_TAG || tag == TEXT_NODE_TAG
}

// A node's shape, by its tag and how many children it has.
fn shape_of(tag: u8, children: usize) -> usize
    requires { children < 256 }
    ensures { result ≡ shape_of (eqb tag (node_tag true)) children }
{
    if tag == TEXT_NODE_TAG {
        256 + children
    } else {
        children
    }
}

// What a field other than the end says.
fn node_of(
    limits: SizeLimits,
    classes: &[u8],
    s: &[u8],
    tag: u8,
    from: usize,
    to: usize,
    nodes: usize,
    depth: usize,
) -> Result<NodeField, Refusal>
    requires in_bounds { 256 ≤ length classes.now }
    requires from_le_to { (from ≤ to) × (to ≤ length s.now) }
    ensures { NodeSays (limits_of limits) classes.now s.now from nodes depth
        (rest_with (limits_of limits) classes.now (record { tag = tag; value = slice from to s.now })
        (fields_of (drop to s.now))) result }
{
    let size = to - from;
    if !is_node_tag(tag) {
        return Err(Refusal::BadField);
    }
    if size < 2 {
        return Err(Refusal::BadField);
    }
    if NAME < size - 1 {
        return Err(Refusal::BadField);
    }
    let children = usize::from(s[from]);
    let name = from + 1;
    if !is_name(classes, &s[name..to]) {
        return Err(Refusal::BadName);
    }
    if bad_node(limits, nodes, children, depth) {
        return Err(Refusal::BadTree);
    }
    Ok(NodeField {
        from: name,
        to,
        shape: shape_of(tag, children),
    })
}

// What the field at a place says: a node, or that the document ends here.
fn step_at(
    limits: SizeLimits,
    classes: &[u8],
    s: &[u8],
    at: usize,
    nodes: usize,
    depth: usize,
) -> Result<Option<NodeField>, Refusal>
    requires { 256 ≤ length classes.now }
    ensures { StepSays (limits_of limits) classes.now s.now at nodes depth
        (λ o. rest_of (limits_of limits) classes.now o (fields_of (drop at s.now))) result }
{
    match field_at(s, at) {
        FieldAt::NoBytes => Err(Refusal::FieldPastEnd),
        FieldAt::PastEnd => Err(Refusal::FieldPastEnd),
        FieldAt::Found(tag, from, to) => {
            if tag == DOCUMENT_END_TAG {
                end_answer(to - from, depth, s.len() - to)?;
                return Ok(None);
            }
            let node = node_of(limits, classes, s, tag, from, to, nodes, depth)?;
            Ok(Some(node))
        }
    }
}

// The innermost of some levels with a node to come: the levels above it are closed.
fn closed_depth(coming: &[usize], depth: usize) -> usize
    requires { depth ≤ length coming.now }
    ensures { Closed coming.now depth result }
{
    for d in (0..depth).rev() {
        if coming[d] != 0 {
            return d + 1;
        }
    }
    0
}

// The open levels after a node with so many children on the innermost: how many there are. For each level, outermost first, `coming`
// has how many nodes are still to come there.
fn after_node(coming: &mut [usize], depth: usize, children: usize) -> usize
    requires { (0 < depth) × (depth < length coming.old) × Open coming.old depth }
    ensures { LevelsAfter coming.old depth children coming.new result }
{
    coming[depth - 1] -= 1;
    coming[depth] = children;
    closed_depth(coming, depth + 1)
}

// The fields of a document, front to back. It begins with no nodes.
fn read_fields(
    limits: SizeLimits,
    classes: &[u8],
    s: &[u8],
    index: &mut DocumentIndex,
) -> Result<(), Refusal>
    requires in_bounds { 256 ≤ length classes.now }
    requires s_len_bound { length s.now ≤ input_limit }
    requires no_nodes { index.old.nodes ≡ 0 }
    ensures { DocumentReads (limits_of limits) classes.now DocumentFile s.now index.new result }
{
    let mut at = 0;
    let mut coming = [0usize; 65];
    coming[0] = 1;
    let mut depth = 1;
    // Fields differ in length: each tells where the next begins.
    while let Some(node) = step_at(limits, classes, s, at, index.nodes, depth)? {
        index.put_node(node.from, node.to, node.shape);
        at = node.to;
        depth = after_node(&mut coming, depth, node.shape % 256);
    }
    Ok(())
}

// Reads a document of either format. After it, whatever the answer, the index has the nodes that were read, up to where it was refused.
pub fn read_document(
    limits: SizeLimits,
    classes: &[u8],
    format: Format,
    s: &[u8],
    index: &mut DocumentIndex,
) -> Result<(), Refusal>
    requires in_bounds { 256 ≤ length classes.now }
    ensures { DocumentReads (limits_of limits) classes.now format s.now index.new result }
{
    index.nodes = 0;
    if INPUT < s.len() {
        return Err(Refusal::InputTooLong);
    }
    match format {
        Format::DocumentFile => read_fields(limits, classes, s, index),
        Format::XmlText => read_tags(limits, classes, s, index),
    }
}
