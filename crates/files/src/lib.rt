// Files of the folder where a program runs, and what a reader gives.
#![tactic(auto)]

ghost use Rattle.std.specs.Prelude.{◌≤◌, ◌<◌, length, take, IfOk, OnOk};
ghost use Rattle.std.specs.Io.KnownBytes.{Consumes, IsAtEnd};

use std::io::Read;
use std::rt::Files;
use std::{fs, io};

// Fills the space from its front, until it is full, the reader ends or a read fails; says how many bytes were read, and the error of the
// read that failed. Where the bytes that the reader has left are known, those in front of the space are the next of them, and it has lost
// no other; with no error, none is left unless the space is full.
fn fill_or_fail<R: Read>(reader: &mut R, space: &mut [u8]) -> (usize, io::Result<()>)
    ensures within { result.0 ≤ length space.new }
    ensures bytes { Consumes (R.remaining reader.old) (R.remaining reader.new) (take result.0 space.new) }
    ensures whole { OnOk result.1 (result.0 < length space.new → IsAtEnd (R.remaining reader.new)) }
{
    let mut n: usize = 0;
    // Each read moves on by as many bytes as it gave.
    while n < space.len() {
        match reader.read(&mut space[n..]) {
            Ok(0) => return (n, Ok(())),
            Ok(more) => {
                n += more;
            }
            Err(e) => return (n, Err(e)),
        }
    }
    (n, Ok(()))
}

// Fills the space from its front, until it is full, the reader ends or a read fails; says how many bytes were read. Where the bytes that
// the reader has left are known, those in front of the space are the next of them, and it has lost no other.
pub fn fill<R: Read>(reader: &mut R, space: &mut [u8]) -> usize
    ensures within { result ≤ length space.new }
    ensures bytes { Consumes (R.remaining reader.old) (R.remaining reader.new) (take result space.new) }
{
    let (n, _) = fill_or_fail(reader, space);
    n
}

// The bytes of an open file, as far as there is room; an error if it cannot be read past them.
fn read_open<F: Read + Drop>(mut file: F, space: &mut [u8]) -> io::Result<usize>
    ensures { IfOk result (λ n. n ≤ length space.new) }
{
    let n = fill(&mut file, space);
    let mut after = [0u8; 1];
    file.read(&mut after)?;
    Ok(n)
}

// The bytes of a file, as far as there is room. A file that cannot be read counts as no bytes.
pub fn read_file<R: Files>(rt: &R, name: &[u8], space: &mut [u8]) -> usize
    ensures { result ≤ length space.new }
{
    let Ok(name) = str::from_utf8(name) else {
        return 0;
    };
    match fs::open(rt, name) {
        Ok(file) => read_open(file, space).unwrap_or(0),
        Err(_) => 0,
    }
}
