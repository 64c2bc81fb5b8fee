// The text of a content, written as its bytes are walked.
ghost use Rattle.std.specs.Prelude.{◌<◌, [], ◌∷◌, ◌≡◌, length};
ghost use Rattle.grammar.specs.Listing.{content_text};
ghost use Rattle.lister_lines.specs.Printing.{mark_of, row_text, Printable, RowPrintable, Printed};

use crate::pieces::{put_byte, put_bytes, put_type};
use reader::operators::{CHOICE, EMPTY, NONE, SEQUENCE, TYPE};

// Where a content ends, and where its text ends.
#[derive(Clone, Copy)]
pub struct Ends {
    pub content: usize,
    pub text: usize,
}

// The mark of an operator: it stands between the operands of 03 and 04, and after the operand of 05, 06 and 07.
fn mark_of(operator: usize) -> u8
    requires { operator < 8 }
    ensures { result ≡ mark_of operator }
{
    let marks = *b"   ,|*+?";
    marks[operator]
}

// A mark after what is written.
fn marked(text: &mut [u8], ends: Ends, mark: u8) -> Ends
    requires { ends.text < length text.old }
    ensures { Printed text.old ends.text (mark ∷ []) ends.content text.new result }
{
    let at = ends.text;
    let end = put_byte(text, at, mark);
    Ends {
        content: ends.content,
        text: end,
    }
}

// The text of the content at a place.
#[cycle(put_content_put_row)]
pub fn put_content(content: &[u8], at: usize, text: &mut [u8], end: usize) -> Ends
    requires { Printable content.now at text.old end }
    ensures { (q : Printable content.now at text.old end)
        → Printed text.old end (content_text q.there.content) q.there.next text.new result }
{
    let operator = usize::from(content[at]);
    match operator {
        NONE => {
            let last = put_byte(text, end, b'!');
            Ends {
                content: at + 1,
                text: last,
            }
        }
        EMPTY => {
            let last = put_bytes(text, end, b"()");
            Ends {
                content: at + 1,
                text: last,
            }
        }
        TYPE => {
            let last = put_type(text, end, usize::from(content[at + 1]));
            Ends {
                content: at + 2,
                text: last,
            }
        }
        SEQUENCE..=CHOICE => {
            let n = usize::from(content[at + 1]);
            let mark = mark_of(operator);
            let row = put_row(content, at + 2, n, b'(', mark, text, end);
            marked(text, row, b')')
        }
        _ => {
            let mark = mark_of(operator);
            let operand = put_content(content, at + 1, text, end);
            marked(text, operand, mark)
        }
    }
}

// The texts of so many contents, with one mark before the first and another before each later one.
#[cycle(put_content_put_row)]
fn put_row(
    content: &[u8],
    at: usize,
    n: usize,
    first: u8,
    mark: u8,
    text: &mut [u8],
    end: usize,
) -> Ends
    requires { RowPrintable content.now at n first mark text.old end }
    ensures { (q : RowPrintable content.now at n first mark text.old end)
        → Printed text.old end (row_text first mark q.there.contents) q.there.next text.new result }
{
    if n == 0 {
        return Ends {
            content: at,
            text: end,
        };
    }
    let start = put_byte(text, end, first);
    let one = put_content(content, at, text, start);
    put_row(content, one.content, n - 1, mark, mark, text, one.text)
}
