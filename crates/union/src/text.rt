// Whether a rule of a union is for text: its tag stands five bytes before its content, in the bytes of its own table.
ghost use Rattle.std.specs.Prelude.{◌≡◌, ◌<◌};
ghost use Rattle.grammar.specs.Table.{Table};
ghost use Rattle.union.specs.View.{Views, Viewed};
ghost use Rattle.union.specs.PairNumbers.{rule_numbered};

use crate::united::United;
use reader::tags::TEXT_RULE_TAG;

pub fn rule_text(old: &[u8], add: &[u8], v: United, i: usize) -> bool
    requires { (Viewed old.now add.now v) × (i < v.rules) }
    ensures { (u : Table) → Views old.now add.now v u → result ≡ (rule_numbered u i).text }
{
    let content_from = v.content_from;
    let from = usize::from(content_from[i]);
    if i < v.old_rules {
        return old[from - 5] == TEXT_RULE_TAG;
    }
    add[from - 5] == TEXT_RULE_TAG
}
