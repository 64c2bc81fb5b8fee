// Whether a content has alternatives: whether anything is left of it once the types that give nothing are gone. `types` from
// `base` on is the set of the types that give something.
ghost use Rattle.std.specs.Prelude.{◌≡◌, ◌&&◌, ◌||◌, ◌+◌, ◌≤◌, ◌<◌, length, get_or};
ghost use Rattle.std.proofs.Math.Option.{some as just};
ghost use Rattle.grammar.specs.Limits.{large};
ghost use Rattle.sets.specs.Sets.{member};
ghost use Rattle.reader.specs.ExprAt.{◌up_to◌};
ghost use Rattle.reader.specs.ContentAt.{ContentAt, ContentsAt};
ghost use Rattle.union.specs.Walks.{has_at, has_row_at};

use reader::operators::{CHOICE, EMPTY, NONE, ONE_OR_MORE, SEQUENCE, TYPE};
use sets::words::has;

// Whether the content at a place has alternatives, and the place after it.
#[derive(Clone, Copy)]
pub struct Productive {
    pub has: bool,
    pub next: usize,
}

// Whether all contents of a row have, whether one has, and the place after them.
#[derive(Clone, Copy)]
pub struct ProductiveRow {
    pub all: bool,
    pub one: bool,
    pub next: usize,
}

// Whether the content at a place, a type, has alternatives: whether the type gives something.
fn type_has(content: &[u8], at: usize, types: &[u32], base: usize) -> Productive
    requires { (at + 1 < length content.now) × (get_or content.now (at + 1) 0 < 128) × (base + 4 ≤ length types.now) }
    ensures { result ≡ record {
      has = member types.now base (get_or content.now (at + 1) 0);
      next = at + 2;
    } }
{
    Productive {
        has: has(types, base, usize::from(content[at + 1])),
        next: at + 2,
    }
}

// Whether the content at a place has alternatives.
#[cycle(content_has_row_has)]
pub fn content_has(content: &[u8], at: usize, types: &[u32], base: usize) -> Productive
    requires { (ContentAt large content.now at) × (base + 4 ≤ length types.now) }
    ensures { has_at (member types.now base) content.now at ≡ just (result.has up_to result.next) }
{
    let operator = usize::from(content[at]);
    match operator {
        NONE => Productive {
            has: false,
            next: at + 1,
        },
        EMPTY => Productive {
            has: true,
            next: at + 1,
        },
        TYPE => type_has(content, at, types, base),
        SEQUENCE => {
            let n = usize::from(content[at + 1]);
            let row = row_has(content, at + 2, n, types, base);
            Productive {
                has: row.all,
                next: row.next,
            }
        }
        CHOICE => {
            let n = usize::from(content[at + 1]);
            let row = row_has(content, at + 2, n, types, base);
            Productive {
                has: row.one,
                next: row.next,
            }
        }
        ONE_OR_MORE => content_has(content, at + 1, types, base),
        _ => {
            let operand = content_has(content, at + 1, types, base);
            Productive {
                has: true,
                ..operand
            }
        }
    }
}

// The same for so many contents, one after the other.
#[cycle(content_has_row_has)]
pub fn row_has(content: &[u8], at: usize, n: usize, types: &[u32], base: usize) -> ProductiveRow
    requires { (ContentsAt large content.now at n) × (base + 4 ≤ length types.now) }
    ensures { has_row_at (member types.now base) content.now at n ≡ just ((result.all, result.one) up_to result.next) }
{
    if n == 0 {
        return ProductiveRow {
            all: true,
            one: false,
            next: at,
        };
    }
    let first = content_has(content, at, types, base);
    let others = row_has(content, first.next, n - 1, types, base);
    ProductiveRow {
        all: first.has && others.all,
        one: first.has || others.one,
        ..others
    }
}
