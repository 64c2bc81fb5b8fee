// The public calls for C and Rust. The first number picks the limits: 0 the small ones, 2 the large ones, any other the standard ones;
// then come the classes. Before a document stands its format: 1 XML text, any other number a document file.
// A slice is a pointer and a length; every answer is one number: the refusal's number times 2^32, and the value (1 for yes and readable,
// 0 for no, the length of a table or of pages written, offset times 65,536 and length for a name).
#![tactic(auto)]

mod answers;

ghost use Rattle.std.specs.Prelude.{◌≤◌, []};
ghost use Rattle.grammar.specs.LimitSets.{size_limits, size_numbered};
ghost use Rattle.grammar.specs.Documents.{format_numbered};
ghost use Rattle.grammar.specs.Kinds.{local, single_type};
ghost use Rattle.grammar.specs.Calls.{after};
ghost use Rattle.grammar.specs.Promises.{TableReading, DocumentReading, NamePlace, Membership, KindTest, Paging, Sampling, Widening};
ghost use Rattle.pages.specs.MostBytes.{most_bytes};
ghost use Rattle.grammar.specs.declared.Source.TheVariants.{Table as a_table, Document as a_document};
ghost use Rattle.exports.specs.Exported.{parted};

use crate::answers::{of_place, of_reading, of_refusal, of_verdict, of_written};
use basis::limits::{limits_of, size_numbered};
use basis::work::clear_work;
use documents::calls::document_reads;
use documents::documents::format_numbered;
use grammar::{Refusal, Source};
use pages::calls::pages;
use reader::calls::table_reads;
use reader::label_places::find_label;
use results::plan::Kind;
use validator::calls::{is_local, is_single_type, lets_in};
use widening::calls::{sample, widen};

// Does a table read?
#[unsafe(no_mangle)]
pub extern "C" fn cogarrune_table_reads(
    size: u32,
    classes: &[u8],
    table: &[u8],
    work: &mut [u32],
) -> u64
    ensures { TableReading (size_limits (size_numbered size)) classes.now table.now work.old
        (after (parted result) [] work.new) }
{
    of_reading(table_reads(size_numbered(size), classes, table, work))
}

// Does a document read?
#[unsafe(no_mangle)]
pub extern "C" fn cogarrune_document_reads(
    size: u32,
    classes: &[u8],
    format: u32,
    document: &[u8],
    work: &mut [u32],
) -> u64
    ensures { DocumentReading (size_limits (size_numbered size)) classes.now (format_numbered format)
        document.now work.old (after (parted result) [] work.new) }
{
    of_reading(document_reads(
        size_numbered(size),
        classes,
        format_numbered(format),
        document,
        work,
    ))
}

// Where the name of a label stands in its table.
#[unsafe(no_mangle)]
pub extern "C" fn cogarrune_label_name(
    size: u32,
    classes: &[u8],
    table: &[u8],
    label: usize,
    work: &mut [u32],
) -> u64
    ensures { NamePlace (size_limits (size_numbered size)) classes.now table.now label work.old
        (after (parted result) [] work.new) }
{
    let limits = limits_of(size_numbered(size));
    if work.len() < limits.words {
        return of_refusal(Refusal::WorkTooShort);
    }
    let found = find_label(limits, classes, table, label);
    clear_work(limits.words, work);
    of_place(found)
}

// Does the table let in the document?
#[unsafe(no_mangle)]
pub extern "C" fn cogarrune_lets_in(
    size: u32,
    classes: &[u8],
    table: &[u8],
    format: u32,
    document: &[u8],
    work: &mut [u32],
) -> u64
    ensures { Membership (size_limits (size_numbered size)) classes.now table.now (format_numbered format)
        document.now work.old (after (parted result) [] work.new) }
{
    of_verdict(lets_in(
        size_numbered(size),
        classes,
        table,
        format_numbered(format),
        document,
        work,
    ))
}

// Is the table local?
#[unsafe(no_mangle)]
pub extern "C" fn cogarrune_is_local(
    size: u32,
    classes: &[u8],
    table: &[u8],
    work: &mut [u32],
) -> u64
    ensures { KindTest (size_limits (size_numbered size)) classes.now local table.now work.old
        (after (parted result) [] work.new) }
{
    of_verdict(is_local(size_numbered(size), classes, table, work))
}

// Is the table single-type?
#[unsafe(no_mangle)]
pub extern "C" fn cogarrune_is_single_type(
    size: u32,
    classes: &[u8],
    table: &[u8],
    work: &mut [u32],
) -> u64
    ensures { KindTest (size_limits (size_numbered size)) classes.now single_type table.now work.old
        (after (parted result) [] work.new) }
{
    of_verdict(is_single_type(size_numbered(size), classes, table, work))
}

// Writes the rules of a table as printed pages.
#[unsafe(no_mangle)]
pub extern "C" fn cogarrune_pages(
    size: u32,
    classes: &[u8],
    table: &[u8],
    out: &mut [u8],
    work: &mut [u32],
) -> u64
    ensures paging { Paging (size_limits (size_numbered size)) classes.now table.now out.old
        work.old (after (parted result) out.new work.new) }
    ensures most { (parted result).value ≤ most_bytes (size_numbered size) }
{
    of_written(pages(size_numbered(size), classes, table, out, work))
}

// Writes the sample table of a document.
#[unsafe(no_mangle)]
pub extern "C" fn cogarrune_sample(
    size: u32,
    classes: &[u8],
    format: u32,
    document: &[u8],
    out: &mut [u8],
    work: &mut [u32],
) -> u64
    ensures { Sampling (size_limits (size_numbered size)) classes.now (format_numbered format)
        document.now out.old work.old
        (after (parted result) out.new work.new) }
{
    of_written(sample(
        size_numbered(size),
        classes,
        format_numbered(format),
        document,
        out,
        work,
    ))
}

// Writes the least local table that lets in all of the old table and of the addition.
#[unsafe(no_mangle)]
pub extern "C" fn cogarrune_widen_local_by_table(
    size: u32,
    classes: &[u8],
    old: &[u8],
    addition: &[u8],
    out: &mut [u8],
    work: &mut [u32],
) -> u64
    ensures { Widening (size_limits (size_numbered size)) classes.now local a_table old.now
        addition.now out.old
        work.old
        (after (parted result) out.new work.new) }
{
    of_written(widen(
        size_numbered(size),
        classes,
        Kind::Local,
        Source::Table,
        old,
        addition,
        out,
        work,
    ))
}

// Writes the least local table that lets in all of the old table, and the document.
#[unsafe(no_mangle)]
pub extern "C" fn cogarrune_widen_local_by_document(
    size: u32,
    classes: &[u8],
    old: &[u8],
    format: u32,
    document: &[u8],
    out: &mut [u8],
    work: &mut [u32],
) -> u64
    ensures { Widening (size_limits (size_numbered size)) classes.now local (a_document (format_numbered format))
        old.now document.now out.old work.old
        (after (parted result) out.new work.new) }
{
    of_written(widen(
        size_numbered(size),
        classes,
        Kind::Local,
        Source::Document(format_numbered(format)),
        old,
        document,
        out,
        work,
    ))
}

// Writes the least single-type table that lets in all of the old table and of the addition.
#[unsafe(no_mangle)]
pub extern "C" fn cogarrune_widen_single_type_by_table(
    size: u32,
    classes: &[u8],
    old: &[u8],
    addition: &[u8],
    out: &mut [u8],
    work: &mut [u32],
) -> u64
    ensures { Widening (size_limits (size_numbered size)) classes.now single_type a_table old.now
        addition.now out.old
        work.old
        (after (parted result) out.new work.new) }
{
    of_written(widen(
        size_numbered(size),
        classes,
        Kind::SingleType,
        Source::Table,
        old,
        addition,
        out,
        work,
    ))
}

// Writes the least single-type table that lets in all of the old table, and the document.
#[unsafe(no_mangle)]
pub extern "C" fn cogarrune_widen_single_type_by_document(
    size: u32,
    classes: &[u8],
    old: &[u8],
    format: u32,
    document: &[u8],
    out: &mut [u8],
    work: &mut [u32],
) -> u64
    ensures { Widening (size_limits (size_numbered size)) classes.now single_type (a_document (format_numbered format))
        old.now document.now out.old work.old
        (after (parted result) out.new work.new) }
{
    of_written(widen(
        size_numbered(size),
        classes,
        Kind::SingleType,
        Source::Document(format_numbered(format)),
        old,
        document,
        out,
        work,
    ))
}
