// The parent of each node of a document.
ghost use Rattle.std.specs.Prelude.{◌+◌, ◌-◌, ◌≤◌, ◌++◌, ◌≡◌, length, take, drop, replicate};
ghost use Rattle.paths.specs.SampleNodes.{parents_of, CountedTree};

// Leaves a number for each child that is to come: from here up to there.
fn leave(pending: &mut [u16], from: usize, to: usize, number: u16)
    requires { (from ≤ to) × (to ≤ length pending.old) }
    ensures { pending.new
        ≡ take from pending.old ++ replicate (to - from) number ++ drop to pending.old }
{
    pending[from..to].fill(number);
}

// The parent of each node; the root counts as its own. What the parents left for the nodes to come stands at the end, nearest first.
pub fn parents_of(shapes: &[u16], nodes: usize) -> [u16; 2048]
    requires { (nodes ≤ 2048) × (nodes ≤ length shapes.now) × CountedTree shapes.now nodes }
    ensures { (q : CountedTree shapes.now nodes) → take nodes result ≡ parents_of q.list }
{
    let mut parents = [0u16; 2048];
    let mut pending = [0u16; 2048];
    let mut top: usize = 2047;
    for i in 0..nodes {
        parents[i] = pending[top];
        let rest = top + 1 - shapes[i] as usize % 256;
        leave(&mut pending, rest, top + 1, i as u16);
        top = rest;
    }
    parents
}
