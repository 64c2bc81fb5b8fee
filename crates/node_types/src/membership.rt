// Whether a table that was read lets in a document that was read.
//
// The nodes are gone through from the last to the first, with a stack of type sets in the lent words: a node takes the sets of its
// children from the top, in order, and leaves its own. That one is made in the words before them, and then takes the last one's place.
ghost use Rattle.std.specs.Prelude.{List, [], ◌≡◌, ℕ, ◌+◌, ◌*◌, ◌<◌, ◌≤◌, length, Ok};
ghost use Rattle.std.proofs.Math.Option.{some as just};
ghost use Rattle.std.proofs.Math.ListN.{get_elem?};
ghost use Rattle.grammar.specs.Limits.{large, content_limit};
ghost use Rattle.grammar.specs.Lists.{any_pass};
ghost use Rattle.grammar.specs.Membership.{takes_text, lets_in};
ghost use Rattle.grammar.specs.ReadDocument.{tree_of};
ghost use Rattle.grammar.specs.Table.{Rule, Table};
ghost use Rattle.grammar.specs.Tree.{Head, Tree};
ghost use Rattle.reader.specs.Held.{Held, SomeHeld};
ghost use Rattle.reader.specs.TableIndex.{part, content_from, content_to, rule_count, Indexes, TableIndexed};
ghost use Rattle.documents.specs.DocumentNodes.{nodes_in};
ghost use Rattle.kinds.specs.RulesAt.{TypesBelow};
ghost use Rattle.walks.specs.TypeSets.{set_at, tests_at};
ghost use Rattle.walks.specs.WalkAt.{run_at, WholeAt, WalkRoom};
ghost use Rattle.labels.specs.Chains.{RulesChained};
ghost use Rattle.node_types.specs.KnownDocument.{index_of, KnownNodes, Brought, RootTypes};
ghost use Rattle.node_types.specs.NodeTypes.{NullableAre, FitsIfNamed, PutIf, TypesAre};

use basis::limits::CONTENT;
use labels::chains::chained_rules;
use labels::label_search::{chained_labels, label_of};
use reader::index::TableIndex;
use reader::rules::for_text;
use sets::set::Set4;
use sets::words::{has, put};
use walks::matching::matches;

// Where the set of a node stands in the lent words; behind it stand those of so many children. And whether the node holds text.
#[derive(Clone, Copy)]
struct NodeSets {
    at: usize,
    children: usize,
    text: bool,
}

// Whether the content of each rule matches no children.
#[tactic(auto, using(kinds::proofs::IndexedKinds::content_order, kinds::proofs::IndexedKinds::content_within))]
fn nullable_contents(
    table: &[u8],
    index: &TableIndex,
    marks: &mut [u8],
    words: &[u32],
) -> [bool; 128]
    requires { (SomeHeld large table.now index.now) × (content_limit ≤ length marks.old) × (4 ≤ length words.now) }
    ensures { NullableAre table.now index.now result }
{
    let rules = index.rule_count();
    let mut nullable = [false; 128];
    for rule in 0..rules {
        let from = index.content_from(rule);
        let to = index.content_to(rule);
        nullable[rule] = matches(&table[from..to], marks, words, 0, 0);
    }
    nullable
}

// Whether a content matches the children whose sets stand from `top` on; `nullable` says whether it matches none.
fn content_fits(
    content: &[u8],
    nullable: bool,
    marks: &mut [u8],
    words: &[u32],
    top: usize,
    count: usize,
) -> bool
    requires { (WholeAt large content.now) × (WalkRoom content.now marks.old words.now 0)
        × (top + 4 * count ≤ length words.now) × (nullable ≡ run_at content.now []) }
    ensures { result ≡ run_at content.now (tests_at words.now top count) }
{
    if count == 0 {
        return nullable;
    }
    matches(content, marks, words, top, count)
}

// Whether a rule takes a node with this mark of text: one that holds text is taken only by a rule for text.
fn takes_text(table: &[u8], index: &TableIndex, rule: usize, text: bool) -> bool
    requires { (TableIndexed table.now index.now) × (rule < rule_count index.now) }
    ensures { (g : Table) (q : Rule) → Indexes table.now index.now g → get_elem? g.rules rule ≡ just q
        → (h : Head) → h.text ≡ text → result ≡ takes_text q h }
{
    !text || for_text(table, index, rule)
}

// Whether a rule fits a node that has its label: it takes the node's text, and its content matches the children.
#[tactic(auto, using(kinds::proofs::IndexedKinds::content_order, kinds::proofs::IndexedKinds::content_within))]
fn rule_fits(
    table: &[u8],
    index: &TableIndex,
    rule: usize,
    nullable: bool,
    marks: &mut [u8],
    words: &[u32],
    node: NodeSets,
) -> bool
    requires { (SomeHeld large table.now index.now) × (rule < rule_count index.now)
        × (nullable ≡ run_at (part table.now (content_from index.now rule) (content_to index.now rule)) [])
        × (content_limit ≤ length marks.old) × (node.at + 4 + 4 * node.children ≤ length words.now) }
    ensures { FitsIfNamed table.now index.now rule node.text
        (tests_at words.now (node.at + 4) node.children) result }
{
    let text = node.text;
    if !takes_text(table, index, rule, text) {
        return false;
    }
    let top = node.at + 4;
    let from = index.content_from(rule);
    let to = index.content_to(rule);
    content_fits(&table[from..to], nullable, marks, words, top, node.children)
}

// Puts a type into the set at a word, if the rule fits.
fn put_if(words: &mut [u32], base: usize, fits: bool, k: usize)
    requires { (k < 128) × (base + 4 ≤ length words.old) }
    ensures { PutIf words.old base fits k words.new }
{
    if fits {
        put(words, base, k);
    }
}

// Makes the set of a node that of the types of the rules of its label that fit it.
fn put_types(
    table: &[u8],
    index: &TableIndex,
    by_label: &[u8; 257],
    nullable: &[bool; 128],
    label: usize,
    marks: &mut [u8],
    words: &mut [u32],
    node: NodeSets,
)
    requires { (SomeHeld large table.now index.now) × (RulesChained index.now by_label.now)
        × (NullableAre table.now index.now nullable.now) × (label ≤ 128) × (content_limit ≤ length marks.old)
        × (node.at + 4 + 4 * node.children ≤ length words.old) }
    ensures { TypesAre table.now index.now label node.text words.old node.at
        node.children words.new }
{
    let base = node.at;
    let rules = index.rule_count();
    Set4::empty().store(words, base);
    let mut i = usize::from(by_label[128 + label]);
    // The rules of one label follow one another by links, not by their numbers.
    while i < rules {
        let fits = rule_fits(table, index, i, nullable[i], marks, words, node);
        put_if(words, base, fits, index.rule_type(i));
        i = usize::from(by_label[i]);
    }
}

// Brings the set at a word to a word behind it. Word by word: a set whose words were just written one by one is slow to read whole.
fn bring(words: &mut [u32], from: usize, to: usize)
    requires { (from ≤ to) × (from < to → from + 4 ≤ to) × (to + 4 ≤ length words.old) }
    ensures { Brought words.old from to words.new }
{
    if from < to {
        words[to] = words[from];
        words[to + 1] = words[from + 1];
        words[to + 2] = words[from + 2];
        words[to + 3] = words[from + 3];
    }
}

// Goes through the nodes from the last to the first, and answers where the root's set then stands.
fn root_types(
    table: &[u8],
    index: &TableIndex,
    document: &[u8],
    names: &[u16; 2048],
    sizes: &[u16; 2048],
    shapes: &[u16; 2048],
    nodes: usize,
    words: &mut [u32],
) -> usize
    requires { (SomeHeld large table.now index.now)
        × (KnownNodes document.now (index_of names.now sizes.now shapes.now nodes)) × (8192 ≤ length words.old) }
    ensures { RootTypes table.now index.now document.now
        (index_of names.now sizes.now shapes.now nodes) words.new result }
{
    let mut marks = [0u8; CONTENT];
    let by_key = chained_labels(table, index);
    let by_label = chained_rules(index);
    let nullable = nullable_contents(table, index, &mut marks, words);
    let mut top = 4 * nodes;
    for at in (0..nodes).rev() {
        let from = usize::from(names[at]);
        let to = from + usize::from(sizes[at]);
        let shape = usize::from(shapes[at]);
        let count = shape % 256;
        let label = label_of(&document[from..to], table, index, &by_key);
        let base = top - 4;
        let node = NodeSets {
            at: base,
            children: count,
            text: 256 <= shape,
        };
        put_types(
            table, index, &by_label, &nullable, label, &mut marks, words, node,
        );
        top = base + 4 * count;
        bring(words, base, top);
    }
    top
}

// Whether some start type is in the set at a word.
fn some_start(index: &TableIndex, words: &[u32], at: usize) -> bool
    requires { (TypesBelow index.now) × (at + 4 ≤ length words.now) }
    ensures { (s : List ℕ) (g : Table) → Indexes s index.now g
        → result ≡ any_pass (set_at words.now at) g.starts }
{
    (0..index.start_count()).any(|start| has(words, at, index.start_type(start)))
}

// Whether the table lets in the document.
pub fn lets_in_read(
    table: &[u8],
    index: &TableIndex,
    document: &[u8],
    names: &[u16; 2048],
    sizes: &[u16; 2048],
    shapes: &[u16; 2048],
    nodes: usize,
    words: &mut [u32],
) -> bool
    requires { (SomeHeld large table.now index.now)
        × (KnownNodes document.now (index_of names.now sizes.now shapes.now nodes)) × (8192 ≤ length words.old) }
    ensures { (g : Table) → Held large table.now index.now g → (t : Tree)
        → tree_of (nodes_in document.now (index_of names.now sizes.now shapes.now nodes))
        ≡ Ok t → result ≡ lets_in g t }
{
    let at = root_types(table, index, document, names, sizes, shapes, nodes, words);
    some_start(index, words, at)
}
