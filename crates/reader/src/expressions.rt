// Contents: exactly one expression, of known operators, counts of 2 or more and types in range, that nests no deeper than allowed.
ghost use Rattle.std.specs.Prelude.{◌≡◌, ℕ, ◌≤◌, length};
ghost use Rattle.grammar.specs.Limits.{content_limit, limits_for};
ghost use Rattle.grammar.specs.ReadContent.{read_content};
ghost use Rattle.reader.specs.Extents.{NestsBelow, deeper_of, joined_extent, type_extent, proper_at, proper_row_at, content_answer};

use crate::operators::{ANY_NUMBER, CHOICE, EMPTY, NONE, OPTIONAL, SEQUENCE, TYPE};
use basis::limits::NESTING;
use grammar::Refusal;

// Where proper expressions end and how deep they nest.
#[derive(Clone, Copy)]
pub struct Extent {
    pub next: usize,
    pub nesting: usize,
}

// One operator above its operands.
fn deeper(operands: Option<Extent>) -> Option<Extent>
    requires { NestsBelow 1025 operands }
    ensures { result ≡ deeper_of operands }
{
    let Extent { next, nesting } = operands?;
    Some(Extent {
        next,
        nesting: nesting + 1,
    })
}

// A first operand that nests so deep, before the others.
fn joined(first: usize, others: Option<Extent>) -> Option<Extent>
    ensures { result ≡ joined_extent first others }
{
    let Extent { next, nesting } = others?;
    Some(Extent {
        next,
        nesting: nesting.max(first),
    })
}

// The number of a type, in range: below `types`. No other of the limits that a size sets is looked at, here and below.
#[tactic(auto, unfolding(crate::specs::Extents::type_extent))]
fn type_number(types: usize, content: &[u8], at: usize) -> Option<Extent>
    ensures { (nodes levels words : ℕ)
        → result ≡ type_extent (limits_for types nodes levels words) content.now at }
{
    if content.len() <= at {
        return None;
    }
    if usize::from(content[at]) < types {
        return Some(Extent {
            next: at + 1,
            nesting: 1,
        });
    }
    None
}

// The proper expression at a place.
#[cycle(expression_operands)]
pub fn expression(types: usize, content: &[u8], at: usize) -> Option<Extent>
    requires { length content.now ≤ content_limit }
    ensures { (nodes levels words : ℕ)
        → result ≡ proper_at (limits_for types nodes levels words) content.now at }
{
    if content.len() <= at {
        return None;
    }
    let operator = usize::from(content[at]);
    match operator {
        NONE..=EMPTY => Some(Extent {
            next: at + 1,
            nesting: 1,
        }),
        TYPE => type_number(types, content, at + 1),
        SEQUENCE..=CHOICE => {
            if content.len() <= at + 1 {
                return None;
            }
            let count = usize::from(content[at + 1]);
            if count < 2 {
                return None;
            }
            deeper(operands(types, content, at + 2, count))
        }
        ANY_NUMBER..=OPTIONAL => deeper(expression(types, content, at + 1)),
        _ => None,
    }
}

// So many proper expressions, one after the other.
#[cycle(expression_operands)]
fn operands(types: usize, content: &[u8], at: usize, count: usize) -> Option<Extent>
    requires { length content.now ≤ content_limit }
    ensures { (nodes levels words : ℕ)
        → result ≡ proper_row_at (limits_for types nodes levels words) content.now at count }
{
    if count == 0 {
        return Some(Extent {
            next: at,
            nesting: 0,
        });
    }
    let first = expression(types, content, at)?;
    joined(
        first.nesting,
        operands(types, content, first.next, count - 1),
    )
}

// Why a content is turned back, if it is. The nesting is looked at after the whole walk.
pub fn content_refusal(types: usize, content: &[u8]) -> Result<(), Refusal>
    requires { length content.now ≤ content_limit }
    ensures { (nodes levels words : ℕ)
        → result ≡ content_answer (read_content (limits_for types nodes levels words) content.now) }
{
    match expression(types, content, 0) {
        None => Err(Refusal::BadContent),
        Some(found) => {
            if found.next < content.len() {
                return Err(Refusal::BadContent);
            }
            if NESTING < found.nesting {
                return Err(Refusal::NestedTooDeep);
            }
            Ok(())
        }
    }
}
