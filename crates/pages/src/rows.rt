// How many rows the rules of a table take.
ghost use Rattle.std.specs.Prelude.{ℕ, ◌+◌, ◌-◌, ◌/◌, ◌≤◌, ◌<◌, max, List, ◌≡◌, length};
ghost use Rattle.grammar.specs.Limits.{large};
ghost use Rattle.grammar.specs.Pages.{page_layout, RuleTexts, rows_of, table_rows};
ghost use Rattle.reader.specs.Held.{SomeHeld};
ghost use Rattle.pages.specs.Printing.{TextsStand, SomeTexts};

use crate::lines::{CONTENT, NAME, TYPE};
use crate::texts::{TextPlaces, put_texts};
use reader::index::TableIndex;

// How many lines of a width a text of so many bytes takes.
fn lines_of(width: usize, n: usize) -> usize
    requires { (1 ≤ width) × (width < 128) × (n ≤ 3139) }
    ensures { result ≡ (n + (width - 1)) / width }
{
    (n + (width - 1)) / width
}

// How many rows the texts of a rule take.
pub fn rows_of(places: TextPlaces) -> usize
    requires { (places.name ≤ places.content) × (places.content ≤ places.end) × (places.end ≤ 3139) }
    ensures by_index { (texts : List ℕ) (t : RuleTexts) → TextsStand texts places t → result ≡ rows_of page_layout t }
    ensures few { result < 4096 }
{
    let kind = lines_of(TYPE, places.name);
    let name = lines_of(NAME, places.content - places.name);
    let content = lines_of(CONTENT, places.end - places.content);
    kind.max(name.max(content))
}

// How many rows all rules take. The texts of each are written to be measured.
pub fn count_rows(table: &[u8], index: &TableIndex, texts: &mut [u8]) -> usize
    requires { SomeHeld large table.now index.now × (3139 ≤ length texts.old) }
    ensures value { (f : SomeHeld large table.now index.now)
        → result ≡ length (table_rows page_layout f.table) }
    ensures few { result ≤ 524288 }
{
    let mut rows: usize = 0;
    for i in 0..index.rule_count() {
        let places = put_texts(table, index, i, texts);
        rows += rows_of(places);
    }
    rows
}
