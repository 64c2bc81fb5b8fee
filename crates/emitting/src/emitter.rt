// From a source content to the tidied content of the result. The alternatives that the source content gives are gathered in the
// draft, each once; their choice is the content. `types` is the set of the source types that have result types, and `from` and
// `results` give the result types of each. `register` is that of the operands kept: the set of the result types among them and
// their notes, and after these there is room for the registers of the rows within.
ghost use Rattle.std.specs.Prelude.{◌+◌, ◌-◌, ◌≤◌, ◌<◌, [], ◌∷◌, map, ◌≡◌, length, take, drop, get_or};
ghost use Rattle.grammar.specs.Lists.{joined_of};
ghost use Rattle.grammar.specs.Content.{empty, type, operands};
ghost use Rattle.theory.specs.Alternatives.{alts, alts_of_each, one_content, gathered};
ghost use Rattle.union.specs.Walks.{list_of_type};
ghost use Rattle.operands.specs.Drafts.{GathersWith};
ghost use Rattle.operands.specs.Notes.{Noted, type_words, Registered};
ghost use Rattle.emitting.specs.Emitting.{RoomForMore, Source, Sources, Operands, Emits};

use basis::limits::CONTENT;
use basis::work::clear;
use grammar::TooLarge;
use operands::drafts::{Gathering, OperandRow, finish, keep, settle};
use operands::limits::{FOLD, HEAD, HEADED, OPERANDS, TYPE_WORDS};
use reader::operators::{
    CHOICE, EMPTY, EMPTY_BYTE, NONE, ONE_OR_MORE_BYTE, SEQUENCE, SEQUENCE_BYTE, TYPE, TYPE_BYTE,
};
use sets::words::{has, put};
use union::productive::{content_has, row_has};

// Where the operands of an expression end in the draft, and where the source goes on.
#[derive(Clone, Copy)]
pub struct Emitted {
    pub next: usize,
    pub end: usize,
}

// Where the results of type i begin; 0 past the end.
fn from_or_zero(from: &[u16], i: usize) -> usize
    ensures { result ≡ get_or from.now i 0 }
{
    usize::from(from.get(i).copied().unwrap_or(0))
}

// The empty content as an alternative.
fn gather_empty(
    draft: &mut [u8],
    row: OperandRow,
    next: usize,
    notes: &mut [u32],
) -> Result<Gathering, TooLarge>
    requires { (q : RoomForMore draft.old row) × Noted notes.old q.kept.list }
    ensures { (q : RoomForMore draft.old row) → Noted notes.old q.kept.list
        → GathersWith (Noted notes.new) draft.old draft.new row next
        (gathered q.kept.list (empty ∷ [])) result }
{
    let end = row.end;
    draft[end] = EMPTY_BYTE;
    settle(draft, row, end + 1, next, notes)
}

// A result type as an alternative. Its two bytes, 2 and its number, fold into its fingerprint.
fn gather_result(
    res: u8,
    draft: &mut [u8],
    row: OperandRow,
    next: usize,
    register: &mut [u32],
) -> Result<Gathering, TooLarge>
    requires { (q : RoomForMore draft.old row) × Registered register.old q.kept.list }
    ensures { (q : RoomForMore draft.old row)
        → Registered register.old q.kept.list
        → GathersWith (Registered register.new) draft.old draft.new row next
        (gathered q.kept.list (type res ∷ [])) result }
{
    let number = usize::from(res);
    let end = row.end;
    if has(register, 0, number) {
        return Ok(Gathering {
            next,
            count: row.count,
            end,
        });
    }
    put(register, 0, number);
    draft[end] = TYPE_BYTE;
    draft[end + 1] = res;
    let print = TYPE * FOLD + number;
    keep(
        draft,
        row,
        end + 2,
        next,
        print,
        &mut register[TYPE_WORDS..],
    )
}

// The result types from `first` up to `stop` as alternatives.
fn gather_types(
    results: &[u8],
    first: usize,
    stop: usize,
    draft: &mut [u8],
    row: OperandRow,
    next: usize,
    register: &mut [u32],
) -> Result<Gathering, TooLarge>
    requires { (q : RoomForMore draft.old row) × Registered register.old q.kept.list }
    ensures { (q : RoomForMore draft.old row)
        → Registered register.old q.kept.list
        → GathersWith (Registered register.new) draft.old draft.new row next
        (gathered q.kept.list (map type (take (stop - first) (drop first results.now)))) result }
{
    let mut count = row.count;
    let mut end = row.end;
    for i in first..stop {
        if results.len() <= i {
            return Ok(Gathering { next, count, end });
        }
        let so_far = OperandRow {
            base: row.base,
            count,
            end,
            limit: row.limit,
        };
        let gathered = gather_result(results[i], draft, so_far, next, register)?;
        count = gathered.count;
        end = gathered.end;
    }
    Ok(Gathering { next, count, end })
}

// The result types of a source type as alternatives.
fn gather_type(
    k: usize,
    from: &[u16],
    results: &[u8],
    draft: &mut [u8],
    row: OperandRow,
    next: usize,
    register: &mut [u32],
) -> Result<Gathering, TooLarge>
    requires { (k < 128) × ((q : RoomForMore draft.old row) × Registered register.old q.kept.list) }
    ensures { (q : RoomForMore draft.old row)
        → Registered register.old q.kept.list
        → GathersWith (Registered register.new) draft.old draft.new row next
        (gathered q.kept.list (map type (list_of_type from.now results.now k))) result }
{
    let first = from_or_zero(from, k);
    let stop = from_or_zero(from, k + 1);
    gather_types(results, first, stop, draft, row, next, register)
}

// The alternatives that a sequence gives: one, or none if an operand has none.
#[cycle(emit_row_gather_gather_around_gather_compound_gather_one_gather_row_gather_sequence)]
fn gather_sequence(
    content: &[u8],
    at: usize,
    types: &[u32],
    from: &[u16],
    results: &[u8],
    draft: &mut [u8],
    row: OperandRow,
    notes: &mut [u32],
) -> Result<Gathering, TooLarge>
    requires { (get_or content.now at 0 ≡ 3)
        × ((q : Source content.now at types.now from.now results.now draft.old row (type_words + length notes.old))
        × Noted notes.old q.kept.list) }
    ensures { (q : Source content.now at types.now from.now results.now
        draft.old row (type_words + length notes.old))
        → Noted notes.old q.kept.list
        → GathersWith (Noted notes.new) draft.old draft.new row q.there.next
        (gathered q.kept.list (alts (list_of_type from.now results.now) q.there.content)) result }
{
    let n = usize::from(content[at + 1]);
    let asked = row_has(content, at + 2, n, types, 0);
    if asked.all {
        let end = row.end;
        draft[end] = SEQUENCE_BYTE;
        draft[end + 1] = content[at + 1];
        let emitted = emit_row(
            content,
            at + 2,
            n,
            types,
            from,
            results,
            draft,
            end,
            end + 2,
            &mut notes[OPERANDS..],
        )?;
        return settle(draft, row, emitted.end, emitted.next, notes);
    }
    Ok(Gathering {
        next: asked.next,
        count: row.count,
        end: row.end,
    })
}

// The alternatives that an operator of one operand gives.
#[cycle(emit_row_gather_gather_around_gather_compound_gather_one_gather_row_gather_sequence)]
fn gather_around(
    content: &[u8],
    at: usize,
    types: &[u32],
    from: &[u16],
    results: &[u8],
    draft: &mut [u8],
    row: OperandRow,
    notes: &mut [u32],
) -> Result<Gathering, TooLarge>
    requires { (5 ≤ get_or content.now at 0)
        × ((q : Source content.now at types.now from.now results.now draft.old row (type_words + length notes.old))
        × Noted notes.old q.kept.list) }
    ensures { (q : Source content.now at types.now from.now results.now
        draft.old row (type_words + length notes.old))
        → Noted notes.old q.kept.list
        → GathersWith (Noted notes.new) draft.old draft.new row q.there.next
        (gathered q.kept.list (alts (list_of_type from.now results.now) q.there.content)) result }
{
    let operator = content[at];
    let asked = content_has(content, at + 1, types, 0);
    if asked.has {
        let end = row.end;
        draft[end] = operator;
        let emitted = emit_row(
            content,
            at + 1,
            1,
            types,
            from,
            results,
            draft,
            end,
            end + 1,
            &mut notes[OPERANDS..],
        )?;
        return settle(draft, row, emitted.end, emitted.next, notes);
    }
    if operator == ONE_OR_MORE_BYTE {
        return Ok(Gathering {
            next: asked.next,
            count: row.count,
            end: row.end,
        });
    }
    gather_empty(draft, row, asked.next, notes)
}

// The alternatives that a sequence or an operator of one operand gives.
#[cycle(emit_row_gather_gather_around_gather_compound_gather_one_gather_row_gather_sequence)]
fn gather_one(
    content: &[u8],
    at: usize,
    types: &[u32],
    from: &[u16],
    results: &[u8],
    draft: &mut [u8],
    row: OperandRow,
    notes: &mut [u32],
) -> Result<Gathering, TooLarge>
    requires { (3 ≤ get_or content.now at 0) × (get_or content.now at 0 ≡ 4 → ⊥)
        × ((q : Source content.now at types.now from.now results.now draft.old row (type_words + length notes.old))
        × Noted notes.old q.kept.list) }
    ensures { (q : Source content.now at types.now from.now results.now
        draft.old row (type_words + length notes.old))
        → Noted notes.old q.kept.list
        → GathersWith (Noted notes.new) draft.old draft.new row q.there.next
        (gathered q.kept.list (alts (list_of_type from.now results.now) q.there.content)) result }
{
    if usize::from(content[at]) == SEQUENCE {
        return gather_sequence(content, at, types, from, results, draft, row, notes);
    }
    gather_around(content, at, types, from, results, draft, row, notes)
}

// The alternatives that a content with operands gives: a sequence, a choice, or an operator of one operand.
#[cycle(emit_row_gather_gather_around_gather_compound_gather_one_gather_row_gather_sequence)]
fn gather_compound(
    content: &[u8],
    at: usize,
    types: &[u32],
    from: &[u16],
    results: &[u8],
    draft: &mut [u8],
    row: OperandRow,
    register: &mut [u32],
) -> Result<Gathering, TooLarge>
    requires { (3 ≤ get_or content.now at 0)
        × ((q : Source content.now at types.now from.now results.now draft.old row (length register.old))
        × Registered register.old q.kept.list) }
    ensures { (q : Source content.now at types.now from.now results.now
        draft.old row (length register.old))
        → Registered register.old q.kept.list
        → GathersWith (Registered register.new) draft.old draft.new row
        q.there.next
        (gathered q.kept.list (alts (list_of_type from.now results.now) q.there.content)) result }
{
    if usize::from(content[at]) == CHOICE {
        let n = usize::from(content[at + 1]);
        return gather_row(
            content,
            at + 2,
            n,
            types,
            from,
            results,
            draft,
            row,
            register,
        );
    }
    gather_one(
        content,
        at,
        types,
        from,
        results,
        draft,
        row,
        &mut register[TYPE_WORDS..],
    )
}

// Adds to the operands in the draft the alternatives that the source content at a place gives.
#[cycle(emit_row_gather_gather_around_gather_compound_gather_one_gather_row_gather_sequence)]
pub fn gather(
    content: &[u8],
    at: usize,
    types: &[u32],
    from: &[u16],
    results: &[u8],
    draft: &mut [u8],
    row: OperandRow,
    register: &mut [u32],
) -> Result<Gathering, TooLarge>
    requires { (q : Source content.now at types.now from.now results.now draft.old row (length register.old))
        × Registered register.old q.kept.list }
    ensures { (q : Source content.now at types.now from.now results.now
        draft.old row (length register.old))
        → Registered register.old q.kept.list
        → GathersWith (Registered register.new) draft.old draft.new row
        q.there.next
        (gathered q.kept.list (alts (list_of_type from.now results.now) q.there.content)) result }
{
    let operator = usize::from(content[at]);
    match operator {
        NONE => Ok(Gathering {
            next: at + 1,
            count: row.count,
            end: row.end,
        }),
        EMPTY => gather_empty(draft, row, at + 1, &mut register[TYPE_WORDS..]),
        TYPE => {
            let k = usize::from(content[at + 1]);
            gather_type(k, from, results, draft, row, at + 2, register)
        }
        _ => gather_compound(content, at, types, from, results, draft, row, register),
    }
}

// The same for so many source contents, one after the other.
#[cycle(emit_row_gather_gather_around_gather_compound_gather_one_gather_row_gather_sequence)]
fn gather_row(
    content: &[u8],
    at: usize,
    n: usize,
    types: &[u32],
    from: &[u16],
    results: &[u8],
    draft: &mut [u8],
    row: OperandRow,
    register: &mut [u32],
) -> Result<Gathering, TooLarge>
    requires { (q : Sources content.now at n types.now from.now results.now draft.old row
        (length register.old))
        × Registered register.old q.kept.list }
    ensures { (q : Sources content.now at n types.now from.now results.now
        draft.old row (length register.old))
        → Registered register.old q.kept.list
        → GathersWith (Registered register.new) draft.old draft.new row
        q.there.next
        (gathered q.kept.list
        (joined_of (λ xs. xs) (alts_of_each (list_of_type from.now results.now) q.there.contents))) result }
{
    let mut at = at;
    let mut count = row.count;
    let mut end = row.end;
    for _ in 0..n {
        let so_far = OperandRow {
            base: row.base,
            count,
            end,
            limit: row.limit,
        };
        let gathered = gather(content, at, types, from, results, draft, so_far, register)?;
        at = gathered.next;
        count = gathered.count;
        end = gathered.end;
    }
    let next = at;
    Ok(Gathering { next, count, end })
}

// Writes the contents that so many source contents give, one after the other, as operands of an expression that begins at `start`.
#[cycle(emit_row_gather_gather_around_gather_compound_gather_one_gather_row_gather_sequence)]
fn emit_row(
    content: &[u8],
    at: usize,
    n: usize,
    types: &[u32],
    from: &[u16],
    results: &[u8],
    draft: &mut [u8],
    start: usize,
    place: usize,
    register: &mut [u32],
) -> Result<Emitted, TooLarge>
    requires { Operands content.now at n types.now from.now results.now draft.old start place (length register.old) }
    ensures { (q : Operands content.now at n types.now from.now results.now
        draft.old start place (length register.old))
        → Emits draft.old draft.new start place n q.there.next
        (operands (map one_content (alts_of_each (list_of_type from.now results.now) q.there.contents))) result }
{
    let mut at = at;
    let mut place = place;
    for _ in 0..n {
        clear(&mut register[0..TYPE_WORDS]);
        let row = OperandRow {
            base: place + HEAD,
            count: 0,
            end: place + HEAD,
            limit: start + HEADED,
        };
        let gathered = gather(content, at, types, from, results, draft, row, register)?;
        at = gathered.next;
        place = finish(draft, place, gathered.count, gathered.end);
        if start + CONTENT < place {
            return Err(TooLarge);
        }
    }
    let next = at;
    Ok(Emitted { next, end: place })
}
