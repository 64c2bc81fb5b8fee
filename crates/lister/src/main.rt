// The lister: prints the local widening of the table `old.tbl` by the document `new.doc`, both in the folder where it runs.
#![tactic(auto)]

use lister_folder::list_folder;
use std::io;

fn main(rt: HostRuntime) -> io::Result<()> {
    list_folder(&rt)
}
