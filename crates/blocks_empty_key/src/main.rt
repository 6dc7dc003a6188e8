// Program `blocks` on an index whose first separator is empty and whose last numbers are the largest.
#![tactic(auto)]

use std::io;

fn main(rt: HostRuntime) -> io::Result<()> {
    blocks_io::run(&rt)
}
