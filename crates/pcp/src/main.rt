// Checks the presentation in the file `group.pcp` of the working folder and prints one line.
#![tactic(auto)]

use std::io;

fn main(rt: HostRuntime) -> io::Result<()> {
    pcp_run::print_line(&rt, b"group.pcp")
}
