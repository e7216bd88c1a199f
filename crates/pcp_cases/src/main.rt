// Prints the line of each stored file: document 01's Q and Z, a presentation for each family in which only that family
// differs (Z for the fourth), no byte at all, wrong numbers of bytes and the largest right one, and two files that can't be read, a
// name that no file has and a folder.
#![tactic(auto)]

use pcp_run::print_line;
use std::io;

fn main(rt: HostRuntime) -> io::Result<()> {
    for name in [
        "q.pcp",
        "z.pcp",
        "family_1.pcp",
        "family_2.pcp",
        "family_3.pcp",
        "empty.pcp",
        "one_byte.pcp",
        "odd.pcp",
        "long.pcp",
        "at_limit.pcp",
        "absent.pcp",
        ".",
    ] {
        print_line(&rt, name.as_bytes())?;
    }
    Ok(())
}
