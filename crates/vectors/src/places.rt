// Where a label's name stands in a table. A part of a slice does not say where it came from, so the label of that name is looked for: no
// two labels of a table that reads have equal names. How the name is spelled, the sum of the part's own bytes tells.
ghost use Rattle.std.specs.Prelude.{◌≡◌, true, ◌+◌, ◌≤◌, ◌<◌, length};
ghost use Rattle.vectors.specs.CaseFile.{NameAt};

use basis::names::same_name;

// A label field of this name starts at a place.
fn label_here(table: &[u8], at: usize, name: &[u8]) -> bool
    requires { at ≤ length table.now }
    ensures { result ≡ true → NameAt table.now (at + 3) name.now }
{
    let field = &table[at..];
    match field.split_first_chunk::<3>() {
        Some((&[16, 0, length], rest)) if usize::from(length) == name.len() => {
            name.len() <= rest.len() && same_name(&rest[..name.len()], name)
        }
        _ => false,
    }
}

// Where the first label of this name stands; 0 if there is none.
pub fn place_of(table: &[u8], name: &[u8]) -> usize
    ensures { 0 < result → NameAt table.now result name.now }
{
    for at in 0..table.len() {
        if label_here(table, at, name) {
            return at + 3;
        }
    }
    0
}
