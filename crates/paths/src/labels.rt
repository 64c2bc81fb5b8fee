// The labels of a sample: the names of the types, in the order of the types.
ghost use Rattle.std.specs.Prelude.{ℕ, ◌≤◌, ◌≡◌, get_or};
ghost use Rattle.paths.specs.SampleNodes.{KeysAt, LabelledTo};

use crate::numbering::{find, next_count};

// The label of each type, and the first node of each label.
#[derive(Clone, Copy)]
pub struct Labels {
    pub of: [u8; 128],
    pub firsts: [u16; 128],
    pub count: usize,
}

// The label of each listed node by first sight. All keys are alike, so that names alone tell nodes apart.
pub fn labels_of(
    s: &[u8],
    names: &[u16],
    sizes: &[u16],
    keys: &[u16],
    nodes: &[u16],
    types: usize,
) -> Labels
    requires { (types ≤ 128) × KeysAt s.now names.now sizes.now keys.now nodes.now types
        × ((i : ℕ) → get_or keys.now i 0 ≡ 0) }
    ensures { LabelledTo s.now names.now sizes.now nodes.now
        result.of result.firsts result.count types }
{
    let mut of = [0u8; 128];
    let mut firsts = [0u16; 128];
    let mut count: usize = 0;
    for t in 0..types {
        let i = nodes[t] as usize;
        let label = find(s, names, sizes, keys, &firsts, count, i);
        of[t] = label as u8;
        firsts[count] = i as u16;
        count = next_count(count, label);
    }
    Labels { of, firsts, count }
}
