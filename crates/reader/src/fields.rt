// Fields: one tag byte, a two-byte length (high byte first), the value.
ghost use Rattle.std.specs.Prelude.{◌≡◌};
ghost use Rattle.reader.specs.FieldAt.{field_at};

// What stands at a place of an input: three answers, since the definition keeps the input's end apart from a field that runs past it.
#[derive(Clone, Copy)]
pub enum FieldAt {
    // A whole field: its tag, where its value begins and where it ends.
    Found(u8, usize, usize),
    // The input ends here.
    NoBytes,
    // A field that runs past the input's end.
    PastEnd,
}

// The field at a place.
pub fn field_at(s: &[u8], at: usize) -> FieldAt
    ensures { result ≡ field_at s.now at }
{
    let size = s.len();
    if size <= at {
        return FieldAt::NoBytes;
    }
    if size - at < 3 {
        return FieldAt::PastEnd;
    }
    let high = usize::from(s[at + 1]);
    let low = usize::from(s[at + 2]);
    let from = at + 3;
    let length = high * 256 + low;
    if size - from < length {
        return FieldAt::PastEnd;
    }
    FieldAt::Found(s[at], from, from + length)
}
