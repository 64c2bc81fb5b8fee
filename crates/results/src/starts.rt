// The starts of a result.
ghost use Rattle.std.specs.Prelude.{◌≤◌, ◌<◌, [], ◌∷◌, length};
ghost use Rattle.grammar.specs.Limits.{input_limit};
ghost use Rattle.grammar.specs.Fields.{field_bytes};
ghost use Rattle.grammar.specs.ReadTable.{start_tag};
ghost use Rattle.theory.specs.Alternatives.{only_if};
ghost use Rattle.sets.specs.Sets.{set_of_eight_at};
ghost use Rattle.union.specs.Places.{start_types_at};
ghost use Rattle.writer.specs.Writing.{Puts};
ghost use Rattle.results.specs.Results.{starts_bytes};

use grammar::TooLarge;
use reader::tags::START_TAG;
use sets::set::Set8;
use union::places::START_TYPES;
use writer::writing::put_field;

// Writes a type as a start, if it is one.
fn put_start(draft: &mut [u8], at: usize, ty: usize, on: bool) -> Result<usize, TooLarge>
    requires { (at ≤ input_limit) × (input_limit ≤ length draft.old) × (ty < 256) }
    ensures { Puts draft.old at (only_if on (field_bytes start_tag (ty ∷ []))) draft.new result }
{
    if on {
        return put_field(draft, at, START_TAG, &[ty as u8]);
    }
    Ok(at)
}

// Writes the starts, ascending.
pub fn put_starts(
    draft: &mut [u8],
    at: usize,
    words: &[u32],
    count: usize,
) -> Result<usize, TooLarge>
    requires { (at ≤ input_limit) × (input_limit ≤ length draft.old) × (12288 ≤ length words.now) × (count ≤ 128) }
    ensures { Puts draft.old at (starts_bytes (set_of_eight_at words.now start_types_at) count)
        draft.new result }
{
    let starts = Set8::load(words, START_TYPES);
    let mut end = at;
    for t in 0..count {
        end = put_start(draft, end, t, starts.has(t))?;
    }
    Ok(end)
}
