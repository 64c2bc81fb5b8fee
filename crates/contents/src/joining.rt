// The content of a set of pairs of a union: what the contents of all their rules give, pair by pair and rule by rule, as one content.
// `register` is that of the operands kept.
ghost use Rattle.std.specs.Prelude.{◌≤◌, ◌<◌, [], length};
ghost use Rattle.grammar.specs.Lists.{joined_of};
ghost use Rattle.theory.specs.Alternatives.{alts, one_content, gathered};
ghost use Rattle.theory.specs.Conditions.{Regular};
ghost use Rattle.sets.specs.Sets.{member};
ghost use Rattle.union.specs.PairNumbers.{contents_of_pair, contents_in};
ghost use Rattle.union.specs.Walks.{list_of_type};
ghost use Rattle.union.specs.Rounds.{content_of_rule};
ghost use Rattle.operands.specs.Drafts.{draft_length, GathersIn};
ghost use Rattle.operands.specs.Notes.{Registered};
ghost use Rattle.emitting.specs.Emitting.{Source};
ghost use Rattle.contents.specs.Completing.{Made};
ghost use Rattle.contents.specs.Joining.{Joining, Ready, content_row, GathersRegistered};

use crate::completing::complete;
use emitting::emitter::gather;
use grammar::TooLarge;
use operands::drafts::{Gathering, OperandRow};
use operands::limits::{HEAD, HEADED, REGISTER};
use sets::set::Set8;
use union::lists::{Lists, TypeLists};
use union::united::United;

// The result types of each type of the union, and the set of the types that have some.
#[derive(Clone, Copy)]
pub struct ResultTypes {
    pub types: Set8,
    pub lists: TypeLists,
}

// Adds what a source content gives, with the lists of its own table.
fn gather_content(
    content: &[u8],
    types: &[u32],
    lists: Lists,
    draft: &mut [u8],
    row: OperandRow,
    register: &mut [u32],
) -> Result<Gathering, TooLarge>
    requires { (q : Source content.now 0 types.now lists.from lists.numbers draft.old row (length register.old))
        × Registered register.old q.kept.list }
    ensures { (q : Source content.now 0 types.now lists.from lists.numbers draft.old row
        (length register.old)) → Registered register.old q.kept.list
        → GathersRegistered draft.new register.new row
        (gathered q.kept.list (alts (list_of_type lists.from lists.numbers) q.there.content)) result }
{
    let from = lists.from;
    let numbers = lists.numbers;
    gather(content, 0, types, &from, &numbers, draft, row, register)
}

// Adds what the content of a rule gives. It stands in the bytes of its own table, with that table's own types.
fn gather_rule(
    old: &[u8],
    add: &[u8],
    v: United,
    i: usize,
    results: ResultTypes,
    draft: &mut [u8],
    row: OperandRow,
    register: &mut [u32],
) -> Result<Gathering, TooLarge>
    requires { Joining old.now add.now v results × (i < v.rules) × Ready draft.old register.old row }
    ensures { (q : Joining old.now add.now v results)
        (k : Ready draft.old register.old row)
        → GathersRegistered draft.new register.new row
        (gathered k.kept.list (alts q.of (content_of_rule q.table i))) result }
{
    let content_from = v.content_from;
    let content_to = v.content_to;
    let from = usize::from(content_from[i]);
    let to = usize::from(content_to[i]);
    let words = results.types.words;
    let lists = results.lists;
    if i < v.old_rules {
        return gather_content(&old[from..to], &words, lists.old, draft, row, register);
    }
    gather_content(
        &add[from..to],
        &words[4..8],
        lists.addition,
        draft,
        row,
        register,
    )
}

// Adds what the contents of a pair's rules give.
fn gather_pair(
    old: &[u8],
    add: &[u8],
    v: United,
    p: usize,
    results: ResultTypes,
    draft: &mut [u8],
    row: OperandRow,
    register: &mut [u32],
) -> Result<Gathering, TooLarge>
    requires { Joining old.now add.now v results × Ready draft.old register.old row }
    ensures { (q : Joining old.now add.now v results)
        (k : Ready draft.old register.old row)
        → GathersRegistered draft.new register.new row
        (gathered k.kept.list (joined_of (alts q.of) (contents_of_pair q.table p))) result }
{
    let firsts = v.firsts;
    let rules = v.rules;
    let mut count = row.count;
    let mut end = row.end;
    for i in 0..rules {
        if usize::from(firsts[i]) != p {
            continue;
        }
        let so_far = OperandRow {
            base: row.base,
            count,
            end,
            limit: row.limit,
        };
        let gathered = gather_rule(old, add, v, i, results, draft, so_far, register)?;
        count = gathered.count;
        end = gathered.end;
    }
    Ok(Gathering {
        next: 0,
        count,
        end,
    })
}

// Gathers what the contents of the pairs of a set give.
fn gather_set(
    old: &[u8],
    add: &[u8],
    v: United,
    set: Set8,
    results: ResultTypes,
    draft: &mut [u8],
) -> Result<Gathering, TooLarge>
    requires { Joining old.now add.now v results × (draft_length ≤ length draft.old) }
    ensures { (q : Joining old.now add.now v results)
        → GathersIn draft.new content_row
        (gathered [] (joined_of (alts q.of) (contents_in q.table (member set.words 0)))) result }
{
    let rules = v.rules;
    let mut register = [0u32; REGISTER];
    let mut count = 0usize;
    let mut end = HEAD;
    for p in 0..rules {
        if !set.has(p) {
            continue;
        }
        let so_far = OperandRow {
            base: HEAD,
            count,
            end,
            limit: HEADED,
        };
        let gathered = gather_pair(old, add, v, p, results, draft, so_far, &mut register)?;
        count = gathered.count;
        end = gathered.end;
    }
    Ok(Gathering {
        next: 0,
        count,
        end,
    })
}

// Makes the content of a set of pairs at the front of the draft.
pub fn content_of_set(
    old: &[u8],
    add: &[u8],
    v: United,
    set: Set8,
    results: ResultTypes,
    draft: &mut [u8],
) -> Result<usize, TooLarge>
    requires { Joining old.now add.now v results × (draft_length ≤ length draft.old) }
    ensures { (q : Joining old.now add.now v results)
        → Regular (one_content (joined_of (alts q.of) (contents_in q.table (member set.words 0))))
        → Made draft.new (one_content (joined_of (alts q.of) (contents_in q.table (member set.words 0)))) result }
{
    let gathered = gather_set(old, add, v, set, results, draft)?;
    complete(draft, gathered.count, gathered.end)
}
