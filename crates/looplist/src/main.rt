// Lists the loop on standard input: document 01's example.
#![tactic(auto)]

use std::io;

fn main(rt: HostRuntime) -> io::Result<()> {
    loop_listing::list_input(&rt)
}
