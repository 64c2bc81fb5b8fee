// The lines of the lister: of a start, of a rule, of a whole table, and of a refusal.
ghost use Rattle.std.specs.Prelude.{◌+◌, ◌≤◌, ◌<◌, [], length, get_or};
ghost use Rattle.grammar.specs.Lists.{joined_of};
ghost use Rattle.grammar.specs.Limits.{standard, large, name_limit};
ghost use Rattle.grammar.specs.Names.{Loads};
ghost use Rattle.grammar.specs.ReadTable.{read_table};
ghost use Rattle.grammar.specs.Listing.{content_text, text_mark, start_line, rule_line, local_text, refusal_line, outcome_text};
ghost use Rattle.reader.specs.Held.{SomeHeld};
ghost use Rattle.reader.specs.TableIndex.{label_count, rule_count};
ghost use Rattle.union.specs.PairNumbers.{rule_numbered};
ghost use Rattle.writer.specs.Writing.{Put};
ghost use Rattle.lister_lines.specs.Printing.{TextPut};

use crate::content_text::put_content;
use crate::pieces::{put_byte, put_bytes, put_decimal, put_type};
use basis::limits::limits_of;
use basis::refusals::number_of;
use grammar::{Refusal, Size};
use reader::index::TableIndex;
use reader::rules::for_text;
use reader::tables::read_table;

// A label's name.
pub fn put_name(table: &[u8], index: &TableIndex, label: usize, text: &mut [u8], at: usize) -> usize
    requires { SomeHeld large table.now index.now × (label < label_count index.now)
        × (at + name_limit ≤ length text.old) }
    ensures { TextPut table.now index.now (λ g. get_or g.labels label []) name_limit text.old at
        text.new result }
{
    let from = index.label_from(label);
    let to = index.label_to(label);
    put_bytes(text, at, &table[from..to])
}

// The content of a rule.
pub fn put_rule_content(
    table: &[u8],
    index: &TableIndex,
    i: usize,
    text: &mut [u8],
    at: usize,
) -> usize
    requires { SomeHeld large table.now index.now × (i < rule_count index.now) × (at + 3071 ≤ length text.old) }
    ensures { TextPut table.now index.now (λ g. content_text (rule_numbered g i).content) 3071
        text.old at text.new result }
{
    let from = index.content_from(i);
    let to = index.content_to(i);
    let ends = put_content(&table[from..to], 0, text, at);
    ends.text
}

// # behind the content of a rule for text.
pub fn put_rule_mark(
    table: &[u8],
    index: &TableIndex,
    i: usize,
    text: &mut [u8],
    at: usize,
) -> usize
    requires { SomeHeld large table.now index.now × (i < rule_count index.now) × (at + 1 ≤ length text.old) }
    ensures { TextPut table.now index.now (λ g. text_mark (rule_numbered g i).text) 1
        text.old at text.new result }
{
    if for_text(table, index, i) {
        return put_byte(text, at, b'#');
    }
    at
}

// The line of a rule: type, name and content.
fn put_rule_line(table: &[u8], index: &TableIndex, i: usize, text: &mut [u8], at: usize) -> usize
    requires { SomeHeld large table.now index.now × (i < rule_count index.now) × (at + 3142 ≤ length text.old) }
    ensures { TextPut table.now index.now (λ g. rule_line g (rule_numbered g i)) 3142 text.old at
        text.new result }
{
    let typed = put_type(text, at, index.rule_type(i));
    let name = put_byte(text, typed, b' ');
    let named = put_name(table, index, index.rule_label(i), text, name);
    let content = put_byte(text, named, b' ');
    let mark = put_rule_content(table, index, i, text, content);
    let end = put_rule_mark(table, index, i, text, mark);
    put_byte(text, end, b'\n')
}

// The line of a start: `start` and type.
fn put_start_line(text: &mut [u8], at: usize, k: usize) -> usize
    requires { (k < 128) × (at + 11 ≤ length text.old) }
    ensures { Put text.old at (start_line k) text.new result }
{
    let behind = put_bytes(text, at, b"start ");
    let end = put_type(text, behind, k);
    put_byte(text, end, b'\n')
}

// The lines of the starts.
fn put_starts(table: &[u8], index: &TableIndex, text: &mut [u8], at: usize) -> usize
    requires { SomeHeld large table.now index.now × (at + 1408 ≤ length text.old) }
    ensures { TextPut table.now index.now (λ g. joined_of start_line g.starts) 1408
        text.old at text.new result }
{
    let mut end = at;
    for i in 0..index.start_count() {
        end = put_start_line(text, end, index.start_type(i));
    }
    end
}

// The lines of the rules.
fn put_rules(table: &[u8], index: &TableIndex, text: &mut [u8], at: usize) -> usize
    requires { SomeHeld large table.now index.now × (at + 402176 ≤ length text.old) }
    ensures { TextPut table.now index.now (λ g. joined_of (rule_line g) g.rules) 402176
        text.old at text.new result }
{
    let mut end = at;
    for i in 0..index.rule_count() {
        end = put_rule_line(table, index, i, text, end);
    }
    end
}

// The text of a table that was read: a first line `local`, the starts, the rules.
fn list_table(table: &[u8], index: &TableIndex, text: &mut [u8]) -> usize
    requires { SomeHeld large table.now index.now × (404000 ≤ length text.old) }
    ensures { TextPut table.now index.now local_text 404000 text.old 0 text.new result }
{
    let starts = put_bytes(text, 0, b"local\n");
    let rules = put_starts(table, index, text, starts);
    put_rules(table, index, text, rules)
}

// The line of a refusal.
pub fn refusal_line(refusal: Refusal, text: &mut [u8]) -> usize
    requires { 12 ≤ length text.old }
    ensures { Put text.old 0 (refusal_line refusal) text.new result }
{
    let number = put_bytes(text, 0, b"refused ");
    let end = put_decimal(text, number, number_of(refusal) as usize);
    put_byte(text, end, b'\n')
}

// What some bytes read as: the text of the table, or the line of the refusal.
pub fn list_bytes(classes: &[u8], table: &[u8], text: &mut [u8]) -> usize
    requires loads { Loads classes.now }
    requires in_bounds { 404000 ≤ length text.old }
    ensures { Put text.old 0 (outcome_text (read_table standard classes.now table.now))
        text.new result }
{
    let limits = limits_of(Size::Standard);
    let mut index = TableIndex::new();
    match read_table(limits, classes, table, &mut index) {
        Err(refusal) => refusal_line(refusal, text),
        Ok(()) => list_table(table, &index, text),
    }
}
