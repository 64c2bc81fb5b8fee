// Whether a content matches a row of children, each given by the set of types that derive it.
//
// One walk over the content for each child. The marks have one number for each byte of the content: at the first byte of an
// expression 1 where the children so far can end that expression, else 0.
ghost use Rattle.std.specs.Prelude.{◌&&◌, ◌||◌, true, false, ◌++◌, ◌↔◌, ◌≡◌, ◌+◌, ◌*◌, ◌<◌, ◌≤◌, length, set, get_or, replicate, drop};
ghost use Rattle.grammar.specs.Limits.{large};
ghost use Rattle.theory.specs.MarkedWalk.{mark_number, is_marked};
ghost use Rattle.reader.specs.ContentAt.{ContentAt, ContentsAt};
ghost use Rattle.walks.specs.TypeSets.{set_at, tests_at};
ghost use Rattle.walks.specs.WalkAt.{walk_at, walk_in_turn_at, walk_each_at, walks_at, run_at};
ghost use Rattle.walks.specs.WalkAt.{walked, ended, WholeAt, AroundType, WalkRoom};

use reader::operators::{
    ANY_NUMBER, CHOICE, EMPTY, NONE, ONE_OR_MORE, OPTIONAL_BYTE, SEQUENCE, TYPE, TYPE_BYTE,
};
use sets::words::has;

// What the walk over an expression gives back: the place after it, whether it matches no children at all, and whether the children so
// far, the last one included, can end it.
#[derive(Clone, Copy)]
pub struct Passed {
    pub next: usize,
    pub nullable: bool,
    pub ends: bool,
}

// Stores whether the children so far can end the expression at a place.
fn mark(marks: &mut [u8], at: usize, ends: bool)
    requires { at < length marks.old }
    ensures { marks.new ≡ set marks.old at (mark_number ends) }
{
    marks[at] = u8::from(ends);
}

// Whether the child, if it may come here, has the type.
fn allowed(incoming: bool, words: &[u32], base: usize, k: usize) -> bool
    requires { (k < 128) × (base + 4 ≤ length words.now) }
    ensures { result ≡ (incoming && set_at words.now base k) }
{
    incoming && has(words, base, k)
}

// The same answer, with its end stored at the expression's first byte.
fn sealed(marks: &mut [u8], at: usize, part: Passed) -> Passed
    requires { at < length marks.old }
    ensures { walked marks.new result ≡ ended at (walked marks.old part) }
{
    mark(marks, at, part.ends);
    part
}

// An expression that also matches no children.
fn or_none(part: Passed) -> Passed
    ensures { result ≡ record { next = part.next; nullable = true; ends = part.ends } }
{
    Passed {
        nullable: true,
        ..part
    }
}

// One child's walk over a type.
fn typed(
    content: &[u8],
    at: usize,
    marks: &mut [u8],
    incoming: bool,
    words: &[u32],
    base: usize,
) -> Passed
    requires { (at + 1 < length content.now) × (get_or content.now (at + 1) 0 < 128)
        × (WalkRoom content.now marks.old words.now base) }
    ensures { walked marks.new result ≡ ended at (record {
      marks = marks.old;
      next = at + 2;
      nullable = false;
      final = incoming && set_at words.now base (get_or content.now (at + 1) 0);
    }) }
{
    let k = usize::from(content[at + 1]);
    let part = Passed {
        next: at + 2,
        nullable: false,
        ends: allowed(incoming, words, base, k),
    };
    sealed(marks, at, part)
}

// One child's walk over the expression at a place; `incoming` where the child may begin it.
#[tactic(auto, using(crate::proofs::WalkLaws::at_below, crate::proofs::WalkLaws::operator_small, crate::proofs::WalkLaws::second_below))]
#[cycle(each_in_turn_operand_operand_in_turn_pass)]
fn pass(
    content: &[u8],
    at: usize,
    marks: &mut [u8],
    incoming: bool,
    words: &[u32],
    base: usize,
) -> Passed
    requires { (ContentAt large content.now at) × (WalkRoom content.now marks.old words.now base) }
    ensures { walked marks.new result
        ≡ walk_at content.now at marks.old incoming (set_at words.now base) }
{
    let operator = usize::from(content[at]);
    match operator {
        NONE => Passed {
            next: at + 1,
            nullable: false,
            ends: false,
        },
        EMPTY => Passed {
            next: at + 1,
            nullable: true,
            ends: false,
        },
        TYPE => typed(content, at, marks, incoming, words, base),
        SEQUENCE => {
            let count = usize::from(content[at + 1]);
            let all = in_turn(content, count, at + 2, marks, incoming, words, base);
            sealed(marks, at, all)
        }
        CHOICE => {
            let count = usize::from(content[at + 1]);
            let one = each(content, count, at + 2, marks, incoming, words, base);
            sealed(marks, at, one)
        }
        ANY_NUMBER => {
            let begins = incoming | (marks[at + 1] == 1);
            let part = operand(content, at + 1, marks, begins, words, base);
            sealed(marks, at, or_none(part))
        }
        ONE_OR_MORE => {
            let begins = incoming | (marks[at + 1] == 1);
            let part = operand(content, at + 1, marks, begins, words, base);
            sealed(marks, at, part)
        }
        _ => {
            let part = operand(content, at + 1, marks, incoming, words, base);
            sealed(marks, at, or_none(part))
        }
    }
}

// The same over an operand. Most operands are types, and need no call of `pass`.
#[cycle(each_in_turn_operand_operand_in_turn_pass)]
fn operand(
    content: &[u8],
    at: usize,
    marks: &mut [u8],
    incoming: bool,
    words: &[u32],
    base: usize,
) -> Passed
    requires { (ContentAt large content.now at) × (WalkRoom content.now marks.old words.now base) }
    ensures { walked marks.new result
        ≡ walk_at content.now at marks.old incoming (set_at words.now base) }
{
    if content[at] == TYPE_BYTE {
        return typed(content, at, marks, incoming, words, base);
    }
    pass(content, at, marks, incoming, words, base)
}

// Whether the expression at a place is a type under one operator: any number of it, one or more of it, or optional.
#[tactic(auto, using(crate::proofs::WalkLaws::at_below, crate::proofs::WalkLaws::operator_small, crate::proofs::WalkLaws::second_below))]
fn is_around_type(content: &[u8], at: usize) -> bool
    requires { ContentAt large content.now at }
    ensures { (result ≡ true) ↔ AroundType content.now at }
{
    5 <= content[at] && content[at + 1] == TYPE_BYTE
}

// One child's walk over a type under one operator.
#[tactic(auto, using(crate::proofs::WalkLaws::at_below, crate::proofs::WalkLaws::operator_small, crate::proofs::WalkLaws::second_below))]
fn around_type(
    content: &[u8],
    at: usize,
    marks: &mut [u8],
    incoming: bool,
    words: &[u32],
    base: usize,
) -> Passed
    requires { (ContentAt large content.now at) × (AroundType content.now at)
        × (WalkRoom content.now marks.old words.now base) }
    ensures { walked marks.new result
        ≡ walk_at content.now at marks.old incoming (set_at words.now base) }
{
    let operator = content[at];
    let again = (operator != OPTIONAL_BYTE) & (marks[at + 1] == 1);
    let begins = incoming | again;
    let part = typed(content, at + 1, marks, begins, words, base);
    let all = Passed {
        nullable: operator != 6,
        ..part
    };
    sealed(marks, at, all)
}

// The same over an operand of a sequence. Many are types under one operator, and need no call of `pass` either.
#[cycle(each_in_turn_operand_operand_in_turn_pass)]
fn operand_in_turn(
    content: &[u8],
    at: usize,
    marks: &mut [u8],
    incoming: bool,
    words: &[u32],
    base: usize,
) -> Passed
    requires { (ContentAt large content.now at) × (WalkRoom content.now marks.old words.now base) }
    ensures { walked marks.new result
        ≡ walk_at content.now at marks.old incoming (set_at words.now base) }
{
    if is_around_type(content, at) {
        return around_type(content, at, marks, incoming, words, base);
    }
    operand(content, at, marks, incoming, words, base)
}

// The same over so many operands of a sequence, from a place on; `begun` where the child may begin the first.
#[cycle(each_in_turn_operand_operand_in_turn_pass)]
fn in_turn(
    content: &[u8],
    count: usize,
    from: usize,
    marks: &mut [u8],
    begun: bool,
    words: &[u32],
    base: usize,
) -> Passed
    requires { (ContentsAt large content.now from count) × (WalkRoom content.now marks.old words.now base) }
    ensures { walked marks.new result
        ≡ walk_in_turn_at content.now from count marks.old begun (set_at words.now base) true false }
{
    let mut at = from;
    let mut nullable = true;
    let mut ends = false;
    let mut incoming = begun;
    for _done in 0..count {
        let went_on = marks[at] == 1;
        let first = operand_in_turn(content, at, marks, incoming, words, base);
        at = first.next;
        nullable &= first.nullable;
        ends = (ends & first.nullable) | first.ends;
        incoming = (incoming & first.nullable) | went_on;
    }
    Passed {
        next: at,
        nullable,
        ends,
    }
}

// The same over so many operands of a choice, from a place on. It stays apart from `in_turn`: the start, the walk over an operand and
// the updates of all truth values differ, so one function for both would choose between the two in almost every line of its loop.
#[cycle(each_in_turn_operand_operand_in_turn_pass)]
fn each(
    content: &[u8],
    count: usize,
    from: usize,
    marks: &mut [u8],
    incoming: bool,
    words: &[u32],
    base: usize,
) -> Passed
    requires { (ContentsAt large content.now from count) × (WalkRoom content.now marks.old words.now base) }
    ensures { walked marks.new result
        ≡ walk_each_at content.now from count marks.old incoming (set_at words.now base) false false }
{
    let mut at = from;
    let mut nullable = false;
    let mut ends = false;
    for _done in 0..count {
        let first = operand(content, at, marks, incoming, words, base);
        at = first.next;
        nullable |= first.nullable;
        ends |= first.ends;
    }
    Passed {
        next: at,
        nullable,
        ends,
    }
}

// Nothing is marked in the first places.
fn clear(marks: &mut [u8], places: usize)
    requires { places ≤ length marks.old }
    ensures { marks.new ≡ replicate places 0 ++ drop places marks.old }
{
    marks[..places].fill(0);
}

// The children's walks over the content, one after the other: whether the last one can end it.
fn walked_through(content: &[u8], marks: &mut [u8], words: &[u32], top: usize, count: usize) -> bool
    requires { (WholeAt large content.now) × (0 < count) × (WalkRoom content.now marks.old words.now top)
        × (top + 4 * count ≤ length words.now) }
    ensures { result ≡ is_marked (walks_at content.now marks.old true (tests_at words.now top count)) 0 }
{
    for i in 0..count {
        pass(content, 0, marks, i == 0, words, top + 4 * i);
    }
    marks[0] == 1
}

// Whether the content matches so many children, whose sets stand in the words from `top` on, four words a set.
pub fn matches(content: &[u8], marks: &mut [u8], words: &[u32], top: usize, count: usize) -> bool
    requires { (WholeAt large content.now) × (WalkRoom content.now marks.old words.now 0)
        × (top + 4 * count ≤ length words.now) }
    ensures { result ≡ run_at content.now (tests_at words.now top count) }
{
    clear(marks, content.len());
    if count == 0 {
        let none = pass(content, 0, marks, false, words, 0);
        return none.nullable;
    }
    walked_through(content, marks, words, top, count)
}
