// The same program over a loop of one byte too many.
#![tactic(auto)]

use std::io;

fn main(rt: HostRuntime) -> io::Result<()> {
    loop_listing::list_input(&rt)
}
