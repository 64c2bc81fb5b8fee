// The answers of the calls, as numbers.
ghost use Rattle.std.specs.Prelude.{◌≡◌};
ghost use Rattle.grammar.specs.Answers.{reading_numbers, verdict_numbers, written_numbers};
ghost use Rattle.vectors.specs.Checksum.{checksum};

use crate::places::place_of;
use crate::sums::byte_sum;
use basis::limits::size_numbered;
use basis::refusals::number_of;
use documents::calls::document_reads;
use documents::documents::format_numbered;
use grammar::{Format, Refusal, Size, Source};
use pages::calls::pages;
use reader::calls::{label_name, table_reads};
use results::plan::Kind;
use validator::calls::{is_local, is_single_type, lets_in};
use widening::calls::{sample, widen};

// A case's call, and the numbers that the call takes: the size, the caller's label and the format of the document. A call is a number,
// as the case file has it and its line prints it; `answer` says which call each number stands for.
#[derive(Clone, Copy)]
pub struct Asked {
    pub call: u8,
    pub size: u32,
    pub label: u32,
    pub format: u32,
}

// A refusal's number or 0, the value, and the checksum of what was written or, for a name, of the part that came back.
#[derive(Clone, Copy)]
pub struct Told {
    pub refusal: u32,
    pub value: u64,
    pub outsum: u32,
}

// The numbers of a call that writes.
#[tactic(auto, unfolding(grammar::specs::Answers::written_numbers, grammar::specs::Answers::refused_by))]
fn of_written(answer: Result<usize, Refusal>, outsum: u32) -> Told
    ensures refusal { result.refusal ≡ (written_numbers answer).refusal }
    ensures value { result.value ≡ (written_numbers answer).value }
    ensures outsum { result.outsum ≡ outsum }
{
    let (refusal, value) = match answer {
        Ok(n) => (0, n as u64),
        Err(r) => (number_of(r), 0),
    };
    Told {
        refusal,
        value,
        outsum,
    }
}

// The numbers of a reading call.
#[tactic(auto, unfolding(grammar::specs::Answers::reading_numbers, grammar::specs::Answers::written_numbers))]
fn of_reading(answer: Result<(), Refusal>, outsum: u32) -> Told
    ensures refusal { result.refusal ≡ (reading_numbers answer).refusal }
    ensures value { result.value ≡ (reading_numbers answer).value }
    ensures outsum { result.outsum ≡ outsum }
{
    of_written(answer.map(|()| 1), outsum)
}

// The numbers of a call that decides.
#[tactic(auto, unfolding(grammar::specs::Answers::verdict_numbers, grammar::specs::Answers::written_numbers))]
fn of_verdict(answer: Result<bool, Refusal>, outsum: u32) -> Told
    ensures refusal { result.refusal ≡ (verdict_numbers answer).refusal }
    ensures value { result.value ≡ (verdict_numbers answer).value }
    ensures outsum { result.outsum ≡ outsum }
{
    of_written(answer.map(usize::from), outsum)
}

// The numbers of a name: where it stands, times 65,536, and its length.
fn of_name(refusal: u32, table: &[u8], name: &[u8]) -> Told
    ensures refusal { result.refusal ≡ refusal }
    ensures outsum { result.outsum ≡ checksum name.now }
{
    let outsum = byte_sum(name);
    if refusal != 0 {
        return Told {
            refusal,
            value: 0,
            outsum,
        };
    }
    let place = place_of(table, name);
    Told {
        refusal,
        value: (place % 65536 * 65536 + name.len() % 65536) as u64,
        outsum,
    }
}

// The name of a label. `label_name` gives back the name alone, and leaves the refusal's number behind a reference, lent here.
fn label_told(size: Size, classes: &[u8], table: &[u8], label: usize, work: &mut [u32]) -> Told {
    let mut refusal: u32 = 0;
    let name = label_name(size, classes, table, label, work, &mut refusal);
    of_name(refusal, table, name)
}

// The kind that a widening call makes, and the sort of its addition.
fn widening_of(call: u8, format: Format) -> (Kind, Source) {
    match call {
        8 => (Kind::Local, Source::Table),
        9 => (Kind::Local, Source::Document(format)),
        10 => (Kind::SingleType, Source::Table),
        _ => (Kind::SingleType, Source::Document(format)),
    }
}

// Runs the call that is asked for on its classes, inputs and lent slices.
pub fn answer(
    asked: Asked,
    classes: &[u8],
    first: &[u8],
    second: &[u8],
    out: &mut [u8],
    work: &mut [u32],
) -> Told {
    let size = size_numbered(asked.size);
    let format = format_numbered(asked.format);
    let call = asked.call;
    match call {
        1 => of_reading(table_reads(size, classes, first, work), byte_sum(out)),
        2 => of_reading(
            document_reads(size, classes, format, first, work),
            byte_sum(out),
        ),
        3 => label_told(size, classes, first, asked.label as usize, work),
        4 => of_verdict(
            lets_in(size, classes, first, format, second, work),
            byte_sum(out),
        ),
        5 => of_verdict(is_local(size, classes, first, work), byte_sum(out)),
        6 => of_verdict(is_single_type(size, classes, first, work), byte_sum(out)),
        7 => of_written(
            sample(size, classes, format, first, out, work),
            byte_sum(out),
        ),
        8..=11 => {
            let (kind, source) = widening_of(call, format);
            let made = widen(size, classes, kind, source, first, second, out, work);
            of_written(made, byte_sum(out))
        }
        12 => of_written(pages(size, classes, first, out, work), byte_sum(out)),
        _ => Told {
            refusal: 99,
            value: 0,
            outsum: 0,
        },
    }
}
