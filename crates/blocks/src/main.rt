// Program `blocks` on an index of 85 bytes.
#![tactic(auto)]

use std::io;

fn main(rt: HostRuntime) -> io::Result<()> {
    blocks_io::run(&rt)
}
