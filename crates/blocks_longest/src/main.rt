// Program `blocks` on the longest input that it reads, 65,536 bytes: 130 blocks in two groups, keys of up to 1,024 bytes, and
// bytes behind the last fields.
#![tactic(auto)]

use std::io;

fn main(rt: HostRuntime) -> io::Result<()> {
    blocks_io::run(&rt)
}
