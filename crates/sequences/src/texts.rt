// Whether a type of a sample is for text: any of its nodes holds text.
ghost use Rattle.std.specs.Prelude.{◌<◌, ◌≡◌, length};
ghost use Rattle.sequences.specs.SampleTexts.{mark_in, text_in, MarksHeld};

// Whether a node holds text: its shape tells.
fn holds_text(shapes: &[u16], i: usize) -> bool
    requires { i < length shapes.now }
    ensures { result ≡ mark_in shapes.now i }
{
    256 <= shapes[i]
}

// Whether any node of a type holds text.
pub fn type_text(shapes: &[u16], types: &[u16], nodes: usize, k: usize) -> bool
    requires { MarksHeld shapes.now types.now nodes }
    ensures { result ≡ text_in shapes.now types.now nodes k }
{
    for i in 0..nodes {
        if usize::from(types[i]) == k && holds_text(shapes, i) {
            return true;
        }
    }
    false
}
