// The pages of a table that was read: the rows of its rules, and blank rows that fill the last page.
ghost use Rattle.std.specs.Prelude.{◌+◌, ◌-◌, ◌*◌, ◌%◌, ◌≤◌, ◌≡◌, length};
ghost use Rattle.grammar.specs.Limits.{large};
ghost use Rattle.grammar.specs.Lists.{joined_of};
ghost use Rattle.grammar.specs.Pages.{page_layout, table_rows, blanks_after, pages};
ghost use Rattle.reader.specs.Held.{SomeHeld};
ghost use Rattle.writer.specs.Writing.{Put};
ghost use Rattle.pages.specs.Printing.{RowsFit, HandedOver};

use crate::lines::{ROW, put_rows};
use crate::rows::{count_rows, rows_of};
use crate::texts::{TEXTS, TextPlaces, put_texts};
use grammar::Refusal;
use reader::index::TableIndex;

// The rows of a page.
const PAGE: usize = 60;

// How many blank rows fill the last page.
fn blanks_after(rows: usize) -> usize
    ensures { result ≡ blanks_after 60 rows }
{
    (PAGE - rows % PAGE) % PAGE
}

// The rows of the rules, from the front.
fn put_rules(table: &[u8], index: &TableIndex, texts: &mut [u8], out: &mut [u8]) -> usize
    requires { RowsFit table.now index.now out.old × (3139 ≤ length texts.old) }
    ensures { (f : SomeHeld large table.now index.now)
        → Put out.old 0 (joined_of (λ row. row) (table_rows page_layout f.table)) out.new result }
{
    let mut end: usize = 0;
    for i in 0..index.rule_count() {
        let places = put_texts(table, index, i, texts);
        end = put_rows(texts, places, rows_of(places), out, end);
    }
    end
}

// The pages, if the output has room.
pub fn put_pages(table: &[u8], index: &TableIndex, out: &mut [u8]) -> Result<usize, Refusal>
    requires { SomeHeld large table.now index.now }
    ensures { (f : SomeHeld large table.now index.now)
        → HandedOver (pages page_layout f.table) out.old out.new result }
{
    let mut texts = [0u8; TEXTS];
    let rows = count_rows(table, index, &mut texts);
    let blanks = blanks_after(rows);
    let size = (rows + blanks) * ROW;
    if out.len() < size {
        return Err(Refusal::OutputTooShort);
    }
    let end = put_rules(table, index, &mut texts, out);
    let none = TextPlaces {
        name: 0,
        content: 0,
        end: 0,
    };
    put_rows(&texts, none, blanks, out, end);
    Ok(size)
}
