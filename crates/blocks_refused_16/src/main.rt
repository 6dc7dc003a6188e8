// Program `blocks` on the same 300 blocks with the last two first ordinals exchanged: opening refuses them by row 16.
#![tactic(auto)]

use std::io;

fn main(rt: HostRuntime) -> io::Result<()> {
    blocks_io::run(&rt)
}
