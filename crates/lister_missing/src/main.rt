// The lister on a folder that has no document.
#![tactic(auto)]

use lister_folder::list_folder;
use std::io;

fn main(rt: HostRuntime) -> io::Result<()> {
    list_folder(&rt)
}
