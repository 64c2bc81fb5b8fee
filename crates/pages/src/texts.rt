// The three texts of a rule, as the lister writes them, one after the other.
ghost use Rattle.std.specs.Prelude.{◌≤◌, ◌<◌, length};
ghost use Rattle.grammar.specs.Limits.{large};
ghost use Rattle.grammar.specs.Pages.{texts_of};
ghost use Rattle.reader.specs.Held.{SomeHeld};
ghost use Rattle.reader.specs.TableIndex.{rule_count};
ghost use Rattle.union.specs.PairNumbers.{rule_numbered};
ghost use Rattle.pages.specs.Printing.{TextsStand};

use lister_lines::lines::{put_name, put_rule_content, put_rule_mark};
use lister_lines::pieces::put_type;
use reader::index::TableIndex;

// Bytes that hold the texts of any rule: a type of 4, a name of 63, a content of 3,071 and its mark.
pub const TEXTS: usize = 3139;

// Where the name and the content begin, and where the content ends. The type begins at 0.
#[derive(Clone, Copy)]
pub struct TextPlaces {
    pub name: usize,
    pub content: usize,
    pub end: usize,
}

// Writes the texts of a rule.
pub fn put_texts(table: &[u8], index: &TableIndex, i: usize, texts: &mut [u8]) -> TextPlaces
    requires { SomeHeld large table.now index.now × (i < rule_count index.now) × (3139 ≤ length texts.old) }
    ensures { (f : SomeHeld large table.now index.now)
        → TextsStand texts.new result (texts_of f.table (rule_numbered f.table i)) }
{
    let name = put_type(texts, 0, index.rule_type(i));
    let content = put_name(table, index, index.rule_label(i), texts, name);
    let mark = put_rule_content(table, index, i, texts, content);
    let end = put_rule_mark(table, index, i, texts, mark);
    TextPlaces { name, content, end }
}
