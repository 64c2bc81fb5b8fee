// The printer: prints the pages of the table `old.tbl` of the folder where it runs.
#![tactic(auto)]

use printer_folder::print_folder;
use std::io;

fn main(rt: HostRuntime) -> io::Result<()> {
    print_folder(&rt)
}
