// The printer on a table that is turned back.
#![tactic(auto)]

use printer_folder::print_folder;
use std::io;

fn main(rt: HostRuntime) -> io::Result<()> {
    print_folder(&rt)
}
