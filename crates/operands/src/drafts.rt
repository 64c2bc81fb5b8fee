// The draft in which a content is made: a list of operands that stand in it one after the other, no two byte-equal.
ghost use Rattle.std.specs.Prelude.{◌+◌, ◌-◌, ◌/◌, ◌%◌, ◌≤◌, true, false, [], ◌∷◌, ◌↔◌, ◌≡◌, length, take, drop};
ghost use Rattle.grammar.specs.Limits.{content_limit};
ghost use Rattle.grammar.specs.Lists.{any_pass};
ghost use Rattle.grammar.specs.Content.{choice_of};
ghost use Rattle.grammar.specs.ReadContent.{same_content};
ghost use Rattle.theory.specs.Alternatives.{gathered};
ghost use Rattle.operands.specs.Drafts.{Kept, Newest, Finished, GathersWith};
ghost use Rattle.operands.specs.Notes.{prints, folded, fingerprint, Noted};

use crate::limits::{FOLD, HEAD, OPERANDS, PRINTED, PRINTS};
use grammar::TooLarge;
use reader::operators::{CHOICE_BYTE, NONE_BYTE};

// The operands after gathering: how many there are and where they end, and where the source goes on.
#[derive(Clone, Copy)]
pub struct Gathering {
    pub next: usize,
    pub count: usize,
    pub end: usize,
}

// The operands of an expression: where the first begins in the draft, how many there are, where they end, and where they must end.
#[derive(Clone, Copy)]
pub struct OperandRow {
    pub base: usize,
    pub count: usize,
    pub end: usize,
    pub limit: usize,
}

// Bytes folded into a fingerprint.
fn fold_bytes(draft: &[u8], from: usize, to: usize) -> usize
    requires { (from ≤ to) × (to ≤ length draft.now) }
    ensures { result ≡ folded 0 (take (to - from) (drop from draft.now)) }
{
    let mut print = 0usize;
    for byte in &draft[from..to] {
        print = (print * FOLD + usize::from(*byte)) % PRINTS;
    }
    print
}

// The fingerprint of an expression.
fn print_of(draft: &[u8], from: usize, to: usize) -> usize
    requires { (from ≤ to) × (to ≤ length draft.now) }
    ensures { result ≡ fingerprint (take (to - from) (drop from draft.now)) }
{
    if to - from < PRINTED {
        return fold_bytes(draft, from, to);
    }
    fold_bytes(draft, from, from + PRINTED)
}

// Whether the operand of a note is the expression after the operands, by their fingerprints and then by their bytes.
fn is_same(draft: &[u8], base: usize, note: u32, end: usize, fresh: usize, print: usize) -> bool
    requires { (base + note % prints ≤ end) × (end ≤ fresh) × (fresh ≤ length draft.now) }
    ensures { (result ≡ true) ↔ ((note / prints ≡ print)
        × (take (fresh - end) (drop (base + note % prints) draft.now)
        ≡ take (fresh - end) (drop end draft.now))) }
{
    let word = note as usize;
    let from = base + word % PRINTS;
    word / PRINTS == print && draft[from..from + (fresh - end)] == draft[end..fresh]
}

// Whether the expression after the operands, of this fingerprint, is one of them.
fn is_there(draft: &[u8], row: OperandRow, fresh: usize, print: usize, notes: &[u32]) -> bool
    requires { ((q : Newest draft.now row fresh) × Noted notes.now q.kept.list) × (row.end ≤ row.base + content_limit)
        × (print ≡ fingerprint (take (fresh - row.end) (drop row.end draft.now))) }
    ensures { (q : Newest draft.now row fresh) → Noted notes.now q.kept.list
        → result ≡ any_pass (same_content q.newest) q.kept.list }
{
    for note in &notes[..row.count] {
        if is_same(draft, row.base, *note, row.end, fresh, print) {
            return true;
        }
    }
    false
}

// Keeps the expression after the operands, which is not one of them, as one more operand, with its note.
pub fn keep(
    draft: &[u8],
    row: OperandRow,
    fresh: usize,
    next: usize,
    print: usize,
    notes: &mut [u32],
) -> Result<Gathering, TooLarge>
    requires { ((q : Newest draft.now row fresh) × (any_pass (same_content q.newest) q.kept.list ≡ false)
        × Noted notes.old q.kept.list) × (row.end ≤ row.limit) × (row.limit ≤ row.base + content_limit)
        × (print ≡ fingerprint (take (fresh - row.end) (drop row.end draft.now))) }
    ensures { (q : Newest draft.now row fresh) → any_pass (same_content q.newest) q.kept.list ≡ false
        → Noted notes.old q.kept.list
        → GathersWith (Noted notes.new) draft.now draft.now row next
        (gathered q.kept.list (q.newest ∷ [])) result }
{
    if row.limit < fresh {
        return Err(TooLarge);
    }
    let count = row.count;
    if OPERANDS <= count {
        return Err(TooLarge);
    }
    notes[count] = (print * PRINTS + (row.end - row.base)) as u32;
    Ok(Gathering {
        next,
        count: count + 1,
        end: fresh,
    })
}

// The same, or drops it if it is one of them.
pub fn settle(
    draft: &[u8],
    row: OperandRow,
    fresh: usize,
    next: usize,
    notes: &mut [u32],
) -> Result<Gathering, TooLarge>
    requires { ((q : Newest draft.now row fresh) × Noted notes.old q.kept.list) × (row.end ≤ row.limit)
        × (row.limit ≤ row.base + content_limit) }
    ensures { (q : Newest draft.now row fresh) → Noted notes.old q.kept.list
        → GathersWith (Noted notes.new) draft.now draft.now row next
        (gathered q.kept.list (q.newest ∷ [])) result }
{
    let print = print_of(draft, row.end, fresh);
    if is_there(draft, row, fresh, print, notes) {
        return Ok(Gathering {
            next,
            count: row.count,
            end: row.end,
        });
    }
    keep(draft, row, fresh, next, print, notes)
}

// Makes one content of the operands that stand two places after `start`: none, the one operand, or the choice of them.
pub fn finish(draft: &mut [u8], start: usize, count: usize, end: usize) -> usize
    requires { Kept draft.old (start + 2) count end }
    ensures { (q : Kept draft.old (start + 2) count end)
        → Finished draft.old draft.new start (choice_of q.list) result }
{
    if count == 0 {
        draft[start] = NONE_BYTE;
        return start + 1;
    }
    if count == 1 {
        draft.copy_within(start + HEAD..end, start);
        return end - HEAD;
    }
    draft[start] = CHOICE_BYTE;
    draft[start + 1] = count as u8;
    end
}
