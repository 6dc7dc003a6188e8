// Program `blocks` on the same 300 blocks as an index of version 4 has them, in two groups: it reads version 3, and refuses them by
// row 14.
#![tactic(auto)]

use std::io;

fn main(rt: HostRuntime) -> io::Result<()> {
    blocks_io::run(&rt)
}
