// The child sequence of a node, as a content: its children run by run.
ghost use Rattle.std.specs.Prelude.{◌+◌, ◌*◌, ◌≤◌, ◌<◌, true, ◌≡◌, length, take};
ghost use Rattle.grammar.specs.Limits.{child_limit};
ghost use Rattle.grammar.specs.ReadContent.{content_bytes};
ghost use Rattle.grammar.specs.Sample.{runs_of, run_content, sequence_of};
ghost use Rattle.theory.specs.Alternatives.{only_if};
ghost use Rattle.writer.specs.Writing.{Put};
ghost use Rattle.sequences.specs.SampleContents.{kid_types, goes_on, run, runs_bytes, NodesHeld, sequence_in};

use basis::limits::CHILDREN;
use reader::operators::{EMPTY_BYTE, ONE_OR_MORE_BYTE, SEQUENCE_BYTE, TYPE_BYTE};

// The types of a node's children, in order, and how many there are.
#[derive(Clone, Copy)]
struct Kids {
    of: [u8; CHILDREN],
    count: usize,
}

// A node's children are the later nodes of which it is the parent.
fn kid_types(parents: &[u16], types: &[u16], nodes: usize, i: usize) -> Kids
    requires { NodesHeld parents.now types.now nodes × (i < nodes) }
    ensures found { take result.count result.of ≡ kid_types parents.now types.now nodes i }
    ensures few { result.count ≤ child_limit }
{
    let mut of = [0u8; CHILDREN];
    let mut count: usize = 0;
    for j in i + 1..nodes {
        if usize::from(parents[j]) != i {
            continue;
        }
        of[count] = types[j] as u8;
        count += 1;
    }
    Kids { of, count }
}

// Whether the next child is of the same type.
fn goes_on(kinds: &[u8], at: usize) -> bool
    requires { at < length kinds.now }
    ensures { result ≡ goes_on kinds.now at }
{
    if kinds.len() - at < 2 {
        return false;
    }
    kinds[at] == kinds[at + 1]
}

// How many runs there are: each ends where no child of its type follows.
fn run_count(kinds: &[u8]) -> usize
    ensures { result ≡ length (runs_of kinds.now) }
{
    let mut runs: usize = 0;
    for at in 0..kinds.len() {
        if !goes_on(kinds, at) {
            runs += 1;
        }
    }
    runs
}

// Writes a run, if it begins here: one or more of its type, or the type itself.
fn put_run(scratch: &mut [u8], at: usize, ty: u8, several: bool, begins: bool) -> usize
    requires { at + length (only_if begins (content_bytes (run_content (run ty several)))) ≤ length scratch.old }
    ensures { Put scratch.old at (only_if begins (content_bytes (run_content (run ty several))))
        scratch.new result }
{
    if !begins {
        return at;
    }
    if several {
        scratch[at] = ONE_OR_MORE_BYTE;
        scratch[at + 1] = TYPE_BYTE;
        scratch[at + 2] = ty;
        return at + 3;
    }
    scratch[at] = TYPE_BYTE;
    scratch[at + 1] = ty;
    at + 2
}

// Writes the runs, one after the other.
fn put_runs(scratch: &mut [u8], at: usize, kinds: &[u8]) -> usize
    requires { at + 2 * length kinds.now ≤ length scratch.old }
    ensures { Put scratch.old at (runs_bytes (runs_of kinds.now)) scratch.new result }
{
    let mut end = at;
    let mut begins = true;
    for (p, kind) in kinds.iter().enumerate() {
        let on = goes_on(kinds, p);
        end = put_run(scratch, end, *kind, on, begins);
        begins = !on;
    }
    end
}

// Writes the sequence of children of these types: no child is empty, a run that is the whole sequence stands alone.
fn put_in_turn(scratch: &mut [u8], at: usize, kinds: &[u8]) -> usize
    requires { (at + 2 + 2 * length kinds.now ≤ length scratch.old) × (length kinds.now ≤ child_limit) }
    ensures { Put scratch.old at (content_bytes (sequence_of kinds.now)) scratch.new result }
{
    let runs = run_count(kinds);
    if runs == 0 {
        scratch[at] = EMPTY_BYTE;
        return at + 1;
    }
    if runs == 1 {
        return put_runs(scratch, at, kinds);
    }
    scratch[at] = SEQUENCE_BYTE;
    scratch[at + 1] = runs as u8;
    put_runs(scratch, at + 2, kinds)
}

// Writes the child sequence of a node.
pub fn put_sequence(
    scratch: &mut [u8],
    at: usize,
    parents: &[u16],
    types: &[u16],
    nodes: usize,
    i: usize,
) -> usize
    requires { NodesHeld parents.now types.now nodes × (i < nodes) × (at + 2 + 2 * child_limit ≤ length scratch.old) }
    ensures { Put scratch.old at (content_bytes (sequence_in parents.now types.now nodes i))
        scratch.new result }
{
    let kids = kid_types(parents, types, nodes, i);
    put_in_turn(scratch, at, &kids.of[..kids.count])
}
