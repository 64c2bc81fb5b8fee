// The pairs that stand in a content once it is in normal form and reduced, left to right, each once. Read off the content of the
// table itself: a sequence with an operand that has no alternatives has none.
ghost use Rattle.std.specs.Prelude.{◌≡◌, [], ◌∷◌, ◌-◌, ◌≤◌, ◌<◌, length, take, drop};
ghost use Rattle.grammar.specs.Lists.{is_in};
ghost use Rattle.union.specs.Walks.{list_of_type, Listed, Once, Adds, PartOfNumbers, SeenListed};
ghost use Rattle.union.specs.Walks.{TypeMet, MetAsks, MetFinds, MetRowAsks, MetRowFinds, sequence_met};

use reader::operators::{CHOICE, EMPTY, NONE, ONE_OR_MORE, SEQUENCE, TYPE};
use sets::set::Set4;

// Whether a content has alternatives, how many numbers stand in the list after it, the place after it, and types whose pairs are
// all in the list.
#[derive(Clone, Copy)]
pub struct MetOne {
    pub has: bool,
    pub count: usize,
    pub next: usize,
    pub seen: Set4,
}

// The same for contents one after the other: whether all have alternatives, and whether one has.
#[derive(Clone, Copy)]
pub struct MetRow {
    pub all: bool,
    pub one: bool,
    pub count: usize,
    pub next: usize,
    pub seen: Set4,
}

// The number is among the first of the list.
fn among(list: &[u8], count: usize, number: u8) -> bool
    requires { count ≤ length list.now }
    ensures { result ≡ is_in number (take count list.now) }
{
    list[..count].contains(&number)
}

// Adds a number after the others, unless it is among them.
fn append(list: &mut [u8], count: usize, number: u8) -> usize
    requires { Once 256 list.old count }
    ensures { Adds (take count list.old) (number ∷ []) list.new result }
{
    if among(list, count, number) {
        return count;
    }
    list[count] = number;
    count + 1
}

// Adds the numbers of a part.
fn append_part(list: &mut [u8], count: usize, numbers: &[u8], first: usize, end: usize) -> usize
    requires { (Once 256 list.old count) × (PartOfNumbers numbers.now first end) }
    ensures { Adds (take count list.old) (take (end - first) (drop first numbers.now))
        list.new result }
{
    let part = &numbers[first..end];
    let mut more = count;
    for number in part {
        more = append(list, more, *number);
    }
    more
}

// Adds the pairs of a type; those of a type in `seen` are there already. `from` and `pairs` give the pairs of each type.
fn met_type(
    k: usize,
    from: &[u16],
    pairs: &[u8],
    list: &mut [u8],
    count: usize,
    next: usize,
    seen: Set4,
) -> MetOne
    requires { (k < 128) × (Listed 128 256 from.now pairs.now) × (Once 256 list.old count)
        × (SeenListed seen.words (list_of_type from.now pairs.now) (take count list.old)) }
    ensures { TypeMet (list_of_type from.now pairs.now) (take count list.old) k next
        list.new result }
{
    let first = usize::from(from[k]);
    let end = usize::from(from[k + 1]);
    if seen.has(k) {
        return MetOne {
            has: first < end,
            count,
            next,
            seen,
        };
    }
    MetOne {
        has: first < end,
        count: append_part(list, count, pairs, first, end),
        next,
        seen: seen.with(k),
    }
}

// The answer where no pairs are met.
fn met_none(has: bool, count: usize, next: usize, seen: Set4) -> MetOne
    ensures { result ≡ record { has = has; count = count; next = next; seen = seen } }
{
    MetOne {
        has,
        count,
        next,
        seen,
    }
}

// The answer for a sequence, from that for its operands. Where one has no alternatives, no pairs are met: `count` and `seen` are
// those before the operands.
fn met_sequence(row: MetRow, count: usize, seen: Set4) -> MetOne
    ensures { result ≡ sequence_met row count seen }
{
    if row.all {
        return MetOne {
            has: true,
            count: row.count,
            next: row.next,
            seen: row.seen,
        };
    }
    met_none(false, count, row.next, seen)
}

// The pairs met in the content at a place, added to the list. `from` and `pairs` give the pairs of each type, and `seen` has types
// whose pairs are all in the list.
#[cycle(met_met_row)]
pub fn met(
    content: &[u8],
    at: usize,
    from: &[u16],
    pairs: &[u8],
    list: &mut [u8],
    count: usize,
    seen: Set4,
) -> MetOne
    requires { (MetAsks content.now at from.now pairs.now list.old count)
        × (SeenListed seen.words (list_of_type from.now pairs.now) (take count list.old)) }
    ensures { MetFinds (list_of_type from.now pairs.now) (take count list.old)
        content.now at list.new result }
{
    let operator = usize::from(content[at]);
    match operator {
        NONE => met_none(false, count, at + 1, seen),
        EMPTY => met_none(true, count, at + 1, seen),
        TYPE => {
            let k = usize::from(content[at + 1]);
            met_type(k, from, pairs, list, count, at + 2, seen)
        }
        SEQUENCE => {
            let n = usize::from(content[at + 1]);
            let row = met_row(content, at + 2, n, from, pairs, list, count, seen);
            met_sequence(row, count, seen)
        }
        CHOICE => {
            let n = usize::from(content[at + 1]);
            let row = met_row(content, at + 2, n, from, pairs, list, count, seen);
            MetOne {
                has: row.one,
                count: row.count,
                next: row.next,
                seen: row.seen,
            }
        }
        ONE_OR_MORE => met(content, at + 1, from, pairs, list, count, seen),
        _ => {
            let operand = met(content, at + 1, from, pairs, list, count, seen);
            MetOne {
                has: true,
                ..operand
            }
        }
    }
}

// The same for so many contents, one after the other.
#[cycle(met_met_row)]
fn met_row(
    content: &[u8],
    at: usize,
    n: usize,
    from: &[u16],
    pairs: &[u8],
    list: &mut [u8],
    count: usize,
    seen: Set4,
) -> MetRow
    requires { (MetRowAsks content.now at n from.now pairs.now list.old count)
        × (SeenListed seen.words (list_of_type from.now pairs.now) (take count list.old)) }
    ensures { MetRowFinds (list_of_type from.now pairs.now) (take count list.old)
        content.now at n list.new result }
{
    if n == 0 {
        return MetRow {
            all: true,
            one: false,
            count,
            next: at,
            seen,
        };
    }
    let first = met(content, at, from, pairs, list, count, seen);
    let others = met_row(
        content,
        first.next,
        n - 1,
        from,
        pairs,
        list,
        first.count,
        first.seen,
    );
    MetRow {
        all: first.has && others.all,
        one: first.has || others.one,
        ..others
    }
}
