// Answers as one number: the refusal's number times 2^32, and the value. The C interface fixes the numbers of each sort of answer, so
// each is written out here.
ghost use Rattle.std.specs.Prelude.{◌≡◌, ℕ, Ok};
ghost use Rattle.grammar.specs.Answers.{refused_by, reading_numbers, verdict_numbers, written_numbers};
ghost use Rattle.exports.specs.Exported.{told, place_numbers, ShortName};

use basis::refusals::number_of;
use grammar::Refusal;

// A refusal.
pub fn of_refusal(refusal: Refusal) -> u64
    ensures { result ≡ told (refused_by refusal) }
{
    number_of(refusal) as u64 * 4294967296
}

// The answer of a reading call.
pub fn of_reading(answer: Result<(), Refusal>) -> u64
    ensures { result ≡ told (reading_numbers answer) }
{
    match answer {
        Ok(()) => 1,
        Err(r) => of_refusal(r),
    }
}

// The answer of a call that decides.
pub fn of_verdict(answer: Result<bool, Refusal>) -> u64
    ensures { result ≡ told (verdict_numbers answer) }
{
    match answer {
        Ok(true) => 1,
        Ok(false) => 0,
        Err(r) => of_refusal(r),
    }
}

// The answer of a call that writes.
pub fn of_written(answer: Result<usize, Refusal>) -> u64
    ensures { result ≡ told (written_numbers answer) }
{
    match answer {
        Ok(n) => n as u64,
        Err(r) => of_refusal(r),
    }
}

// The place of a name: its offset times 65,536, and its length.
pub fn of_place(found: Result<(usize, usize), Refusal>) -> u64
    requires { (from to : ℕ) → found ≡ Ok (from, to) → ShortName from to }
    ensures { result ≡ told (place_numbers found) }
{
    match found {
        Ok((from, to)) => (from * 65536 + (to - from)) as u64,
        Err(r) => of_refusal(r),
    }
}
