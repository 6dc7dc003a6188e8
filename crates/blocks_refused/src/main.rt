// Program `blocks` on an empty input, which opening refuses by row 10.
#![tactic(auto)]

use std::io;

fn main(rt: HostRuntime) -> io::Result<()> {
    blocks_io::run(&rt)
}
