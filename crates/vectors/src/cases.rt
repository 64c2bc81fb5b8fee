// Cases, read from standard input, front to back.
ghost use Rattle.std.specs.Prelude.{◌≤◌, length};

use crate::answers::{Asked, Told, answer};
use crate::fills::{fill_output, fill_work};
use crate::numbers::number;
use crate::sums::word_sum;
use basis::ascii::ASCII;
use files::fill;
use std::io;
use std::io::Read;

// The next byte; 0 where the input has ended.
fn read_byte<F: Read>(input: &mut F) -> u8 {
    let mut one = [0u8; 1];
    fill(input, &mut one);
    one[0]
}

// The next number of four bytes.
fn read_number<F: Read>(input: &mut F) -> u32 {
    let mut four = [0u8; 4];
    fill(input, &mut four);
    number(four[0], four[1], four[2], four[3])
}

// The next bytes, so many; none where there is no space for them.
fn read_bytes<F: Read>(input: &mut F, count: usize, space: &mut [u8]) -> usize
    ensures { result ≤ length space.new }
{
    if space.len() < count {
        return 0;
    }
    fill(input, &mut space[0..count])
}

// The next input: its length, then its bytes.
fn read_input<F: Read>(input: &mut F, space: &mut [u8]) -> usize
    ensures { result ≤ length space.new }
{
    let count = read_number(input) as usize;
    read_bytes(input, count, space)
}

// A number and what follows it.
fn print_number<R: Print>(rt: &R, n: u64, after: u8) -> io::Result<()> {
    print!(rt; "{n}")?;
    rt.write_all(&[after])
}

// The line of a case, number by number: a write that fails leaves those before it.
fn print_line<R: Print>(rt: &R, call: u8, told: Told, worksum: u32) -> io::Result<()> {
    print_number(rt, u64::from(call), b' ')?;
    print_number(rt, u64::from(told.refusal), b' ')?;
    print_number(rt, told.value, b' ')?;
    print_number(rt, u64::from(told.outsum), b' ')?;
    print_number(rt, u64::from(worksum), b'\n')
}

// Fills the lent slices, runs the call and prints the line.
fn run<R: Print>(
    rt: &R,
    asked: Asked,
    classes: &[u8],
    word: u32,
    first: &[u8],
    second: &[u8],
    out: &mut [u8],
    work: &mut [u32],
) -> io::Result<()> {
    fill_output(out);
    fill_work(work, word);
    let call = asked.call;
    let told = answer(asked, classes, first, second, out, work);
    let worksum = word_sum(work);
    print_line(rt, call, told, worksum)
}

// Reads the inputs of a case and runs it, with lent slices of these lengths.
fn run_lent<R: Print, F: Read>(
    rt: &R,
    input: &mut F,
    asked: Asked,
    classes: &[u8],
    words: usize,
    word: u32,
    bytes: usize,
) -> io::Result<bool> {
    let mut first = [0u8; 65600];
    let mut second = [0u8; 65600];
    let mut out = [0u8; 190000];
    let mut work = [0u32; 32900];
    if 32900 < words {
        return Ok(false);
    }
    if 190000 < bytes {
        return Ok(false);
    }
    let n = read_input(input, &mut first);
    let m = read_input(input, &mut second);
    run(
        rt,
        asked,
        classes,
        word,
        &first[0..n],
        &second[0..m],
        &mut out[0..bytes],
        &mut work[0..words],
    )?;
    Ok(true)
}

// Reads what follows the classes of a case and runs it.
fn run_under<R: Print, F: Read>(
    rt: &R,
    input: &mut F,
    call: u8,
    size: u32,
    classes: &[u8],
) -> io::Result<bool> {
    let words = read_number(input);
    let word = read_number(input);
    let bytes = read_number(input);
    let asked = Asked {
        call,
        size,
        label: read_number(input),
        format: read_number(input),
    };
    run_lent(
        rt,
        input,
        asked,
        classes,
        words as usize,
        word,
        bytes as usize,
    )
}

// Reads a case and runs it; false after the last one. The number 2^32 - 1 of classes stands for those of the base, which do not follow.
// The only error is that of a write: the input then stands behind the case, of whose line a part may be printed.
pub fn run_next<R: Print, F: Read>(rt: &R, input: &mut F) -> io::Result<bool> {
    let call = read_byte(input);
    if call == 0 {
        return Ok(false);
    }
    let size = read_number(input);
    let count = read_number(input);
    if count == u32::MAX {
        let base = ASCII;
        return run_under(rt, input, call, size, &base);
    }
    let mut space = [0u8; 300];
    let n = read_bytes(input, count as usize, &mut space);
    run_under(rt, input, call, size, &space[0..n])
}
