// The content that the gathered alternatives make, at the front of the draft; or that it is too large for a table.
ghost use Rattle.grammar.specs.Content.{choice_of};
ghost use Rattle.theory.specs.Conditions.{Regular};
ghost use Rattle.operands.specs.Drafts.{Kept};
ghost use Rattle.contents.specs.Completing.{Made};

use basis::limits::{CONTENT, NESTING, limits_of};
use grammar::{Size, TooLarge};
use operands::drafts::finish;
use reader::expressions::expression;

// Makes one content of the operands that stand from the third byte of the draft on. Its nesting is read off the bytes.
pub fn complete(draft: &mut [u8], count: usize, end: usize) -> Result<usize, TooLarge>
    requires { Kept draft.old 2 count end }
    ensures { (q : Kept draft.old 2 count end) → Regular (choice_of q.list)
        → Made draft.new (choice_of q.list) result }
{
    let last = finish(draft, 0, count, end);
    if CONTENT < last {
        return Err(TooLarge);
    }
    match expression(limits_of(Size::Large).rules, &draft[0..last], 0) {
        None => Err(TooLarge),
        Some(found) => {
            if NESTING < found.nesting {
                return Err(TooLarge);
            }
            Ok(last)
        }
    }
}
