// Program `blocks` on 65,537 bytes: an index that would open, with one byte too many behind its last fields.
#![tactic(auto)]

use std::io;

fn main(rt: HostRuntime) -> io::Result<()> {
    blocks_io::run(&rt)
}
