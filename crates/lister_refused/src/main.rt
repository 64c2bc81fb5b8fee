// The lister on a folder whose table has a byte after its end.
#![tactic(auto)]

use lister_folder::list_folder;
use std::io;

fn main(rt: HostRuntime) -> io::Result<()> {
    list_folder(&rt)
}
