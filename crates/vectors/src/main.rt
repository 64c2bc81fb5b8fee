// Runs each case of a case file, which comes by standard input, on the product, and prints a line for each. The second validator
// (tests/second_validator, whose README has both formats) makes the cases and the lines that have to come out.
#![tactic(auto)]

mod answers;
mod cases;
mod fills;
mod numbers;
mod places;
mod sums;

use cases::run_next;
use std::io;

// A proved loop has to end, and nothing says that the input does. So the turns are bounded, by a number that no run uses up.
fn main(rt: HostRuntime) -> io::Result<()> {
    let mut input = rt.reader();
    for _ in 0..u64::MAX {
        if !run_next(&rt, &mut input)? {
            break;
        }
    }
    Ok(())
}
