// The limits of files, once for all code. crates/grammar/specs/Limits.antt has them for the definitions.
ghost use Rattle.std.specs.Prelude.{◌≡◌};
ghost use Rattle.grammar.specs.LimitSets.{size_limits, size_numbered, limits_of, Within};

use grammar::{Size, SizeLimits};

// Bytes of an input.
pub const INPUT: usize = 32768;
// Bytes of a name.
pub const NAME: usize = 63;
// Bytes of a content.
pub const CONTENT: usize = 1024;
// How deep a content may nest.
pub const NESTING: usize = 32;
// Children of a node.
pub const CHILDREN: usize = 200;

// The limits that a size sets.
pub fn limits_of(size: Size) -> SizeLimits
    ensures limits { limits_of result ≡ size_limits size }
    ensures within { Within result }
{
    match size {
        Size::Small => SizeLimits {
            rules: 16,
            nodes: 256,
            levels: 16,
            words: 12288,
        },
        Size::Standard => SizeLimits {
            rules: 64,
            nodes: 1024,
            levels: 64,
            words: 16384,
        },
        Size::Large => SizeLimits {
            rules: 128,
            nodes: 2048,
            levels: 64,
            words: 32768,
        },
    }
}

// The size that a number stands for in calls from C: 0 the small one, 2 the large one, any other number the standard one.
#[tactic(auto, unfolding(grammar::specs::LimitSets::size_numbered))]
pub fn size_numbered(number: u32) -> Size
    ensures { result ≡ size_numbered number }
{
    match number {
        0 => Size::Small,
        2 => Size::Large,
        _ => Size::Standard,
    }
}
