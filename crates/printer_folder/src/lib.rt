// What the printer prints for the table of the folder where it runs.
#![tactic(auto)]

ghost use Rattle.std.specs.Prelude.{◌≤◌, length};
ghost use Rattle.grammar.specs.Limits.{standard};
ghost use Rattle.grammar.specs.Names.{ascii_classes};
ghost use Rattle.grammar.specs.Pages.{printing};
ghost use Rattle.writer.specs.Writing.{Put};

use basis::ascii::ASCII;
use basis::limits::INPUT;
use files::read_file;
use grammar::{Refusal, Size};
use lister_lines::lines::refusal_line;
use pages::calls::pages;
use std::io;
use std::rt::Files;

// Bytes of a file that are read: one more than it may have shows that it is too long.
const FILE: usize = INPUT + 1;

// Bytes that the pages of a table take at most, and working words that a call needs, at the standard size.
const PAGES: usize = 170820;

const WORDS: usize = 16384;

// The pages of a table under the classes of the base, or the line of the refusal.
pub fn print(table: &[u8], out: &mut [u8], work: &mut [u32]) -> usize
    requires { (170820 ≤ length out.old) × (16384 ≤ length work.old) }
    ensures { Put out.old 0 (printing standard ascii_classes table.now) out.new result }
{
    let classes = ASCII;
    match pages(Size::Standard, &classes, table, out, work) {
        Err(refusal) => refusal_line(refusal, out),
        Ok(n) => n,
    }
}

// Prints what the file `old.tbl` gives. The only error is that of the write; a part of the pages may then be printed.
pub fn print_folder<R: Files + Print>(rt: &R) -> io::Result<()> {
    let mut table = [0u8; FILE];
    let mut out = [0u8; PAGES];
    let mut work = [0u32; WORDS];
    let n = read_file(rt, b"old.tbl", &mut table);
    let end = print(&table[0..n], &mut out, &mut work);
    rt.write_all(&out[0..end])
}
