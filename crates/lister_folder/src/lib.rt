// What the lister prints for the files of the folder where it runs.
#![tactic(auto)]

ghost use Rattle.std.specs.Prelude.{◌≤◌, length};
ghost use Rattle.grammar.specs.Limits.{standard, input_limit};
ghost use Rattle.grammar.specs.Names.{ascii_classes};
ghost use Rattle.grammar.specs.Listing.{listing};
ghost use Rattle.writer.specs.Writing.{Put};

use basis::ascii::ASCII;
use basis::limits::INPUT;
use files::read_file;
use grammar::{Format, Refusal, Size, Source};
use lister_lines::limits::TEXT;
use lister_lines::lines::{list_bytes, refusal_line};
use results::plan::Kind;
use std::io;
use std::rt::Files;
use widening::calls::widen;

// Bytes of a file that are read: one more than it may have shows that it is too long.
const FILE: usize = INPUT + 1;

// Working words that a call of the standard size needs.
const WORDS: usize = 16384;

// The text for the bytes of an old table and a document: of the local widening under the classes of the base, or of the refusal.
pub fn list(old: &[u8], document: &[u8], out: &mut [u8], work: &mut [u32], text: &mut [u8]) -> usize
    requires { (input_limit ≤ length out.old) × (16384 ≤ length work.old) × (404000 ≤ length text.old) }
    ensures { Put text.old 0 (listing standard ascii_classes old.now document.now)
        text.new result }
{
    let classes = ASCII;
    match widen(
        Size::Standard,
        &classes,
        Kind::Local,
        Source::Document(Format::DocumentFile),
        old,
        document,
        out,
        work,
    ) {
        Err(refusal) => refusal_line(refusal, text),
        Ok(n) => list_bytes(&classes, &out[0..n], text),
    }
}

// Prints what the files `old.tbl` and `new.doc` give. The only error is that of the write; a part of the text may then be printed.
pub fn list_folder<R: Files + Print>(rt: &R) -> io::Result<()> {
    let mut old = [0u8; FILE];
    let mut document = [0u8; FILE];
    let mut out = [0u8; INPUT];
    let mut work = [0u32; WORDS];
    let mut text = [0u8; TEXT];
    let n = read_file(rt, b"old.tbl", &mut old);
    let m = read_file(rt, b"new.doc", &mut document);
    let end = list(&old[0..n], &document[0..m], &mut out, &mut work, &mut text);
    rt.write_all(&text[0..end])
}
