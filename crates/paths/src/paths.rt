// The types of a sample: one for each path of names, numbered by first visit.
ghost use Rattle.std.specs.Prelude.{◌<◌, ◌≡◌, length, get_or};
ghost use Rattle.paths.specs.SampleNodes.{Whole, above_in, TypedTo};

use crate::numbering::{find, next_count};

// The type of each node, and the first node of each type.
#[derive(Clone, Copy)]
pub struct Types {
    pub of: [u16; 2048],
    pub firsts: [u16; 2048],
    pub count: usize,
}

// What a node's parent's type is: none for the root.
fn above_type(types: &[u16], parent: usize, i: usize) -> usize
    requires { 0 < i → (parent < length types.now) × (get_or types.now parent 0 < 2048) }
    ensures { result ≡ above_in types.now parent i }
{
    if i == 0 {
        return 0;
    }
    types[parent] as usize + 1
}

// The type of each node by first visit: nodes have one type if their parents have and their names are equal.
pub fn types_of(s: &[u8], names: &[u16], sizes: &[u16], parents: &[u16], nodes: usize) -> Types
    requires { Whole s.now names.now sizes.now parents.now nodes }
    ensures { (q : Whole s.now names.now sizes.now parents.now nodes)
        → TypedTo q.list q.tree result.of result.firsts result.count nodes }
{
    let mut of = [0u16; 2048];
    let mut aboves = [0u16; 2048];
    let mut firsts = [0u16; 2048];
    let mut count: usize = 0;
    for i in 0..nodes {
        aboves[i] = above_type(&of, parents[i] as usize, i) as u16;
        let t = find(s, names, sizes, &aboves, &firsts, count, i);
        of[i] = t as u16;
        firsts[count] = i as u16;
        count = next_count(count, t);
    }
    Types { of, firsts, count }
}
