// Program `blocks` on 300 blocks in three groups: block i goes from i² to (i + 1)², its first ordinal is 3 × i, one more where i
// is odd, and its separator is 1,000 + i in two bytes, the high one first.
#![tactic(auto)]

use std::io;

fn main(rt: HostRuntime) -> io::Result<()> {
    blocks_io::run(&rt)
}
