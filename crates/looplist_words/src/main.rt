// The same program over a loop whose items have every word.
#![tactic(auto)]

use std::io;

fn main(rt: HostRuntime) -> io::Result<()> {
    loop_listing::list_input(&rt)
}
