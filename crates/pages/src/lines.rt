// Lines of a column, and rows of three of them.
ghost use Rattle.std.specs.Prelude.{◌+◌, ◌*◌, ◌≤◌, ◌<◌, length};
ghost use Rattle.grammar.specs.Lists.{joined_of, numbers_below};
ghost use Rattle.grammar.specs.Pages.{page_layout, RuleTexts, line_of, row_of};
ghost use Rattle.writer.specs.Writing.{Put};
ghost use Rattle.pages.specs.Printing.{TextsStand, SomeTexts};

use crate::texts::TextPlaces;
use lister_lines::pieces::{put_byte, put_bytes};

// The widths of the columns of type, name and content.
pub const TYPE: usize = 3;

pub const NAME: usize = 23;

pub const CONTENT: usize = 44;

// The bytes of a row: the three columns, the spaces between them, a line feed.
pub const ROW: usize = 73;

// Line i of a text, in a column of a width: bytes of the text, and spaces behind its end.
fn put_line(text: &[u8], width: usize, i: usize, out: &mut [u8], at: usize) -> usize
    requires { (width < 128) × (i < 4096) × (at + width ≤ length out.old) }
    ensures { Put out.old at (line_of width text.now i) out.new result }
{
    let from = (i * width).min(text.len());
    let to = (from + width).min(text.len());
    let behind = put_bytes(out, at, &text[from..to]);
    out[behind..at + width].fill(b' ');
    at + width
}

// Row i of a rule's texts.
fn put_row(texts: &[u8], places: TextPlaces, i: usize, out: &mut [u8], at: usize) -> usize
    requires { SomeTexts texts.now places × (i < 4096) × (at + 73 ≤ length out.old) }
    ensures { (t : RuleTexts) → TextsStand texts.now places t
        → Put out.old at (row_of page_layout t i) out.new result }
{
    let name = places.name;
    let content = places.content;
    let end = places.end;
    let typed = put_line(&texts[0..name], TYPE, i, out, at);
    let gap = put_byte(out, typed, b' ');
    let named = put_line(&texts[name..content], NAME, i, out, gap);
    let second = put_byte(out, named, b' ');
    let told = put_line(&texts[content..end], CONTENT, i, out, second);
    put_byte(out, told, b'\n')
}

// So many rows of a rule's texts.
pub fn put_rows(texts: &[u8], places: TextPlaces, rows: usize, out: &mut [u8], at: usize) -> usize
    requires { SomeTexts texts.now places × (rows < 4096) × (at + 73 * rows ≤ length out.old) }
    ensures { (t : RuleTexts) → TextsStand texts.now places t
        → Put out.old at (joined_of (row_of page_layout t) (numbers_below rows)) out.new result }
{
    let mut end = at;
    for i in 0..rows {
        end = put_row(texts, places, i, out, end);
    }
    end
}
