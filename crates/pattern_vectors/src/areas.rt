// An area that a call writes to, full of one byte before.
use std::alloc::{AllocError, Global};

// No area of a line is longer.
pub const MOST: u64 = 2048;

#[derive(Drop)]
pub struct Area {
    pub bytes: Vec<u8>,
    fill: u8,
}

impl Area {
    // The first n bytes, if all others are as they were.
    pub fn front(&self, n: usize) -> Option<&[u8]> {
        vector_parts::area::front(&self.bytes, n, self.fill)
    }
}

// Whether a call does as it should over two fills: every byte that is written shows over one of them.
pub fn holds_over_both<F: Fn(&mut Area) -> bool>(
    alloc: Global,
    room: usize,
    holds: F,
) -> Result<bool, AllocError>
    requires { F.IsAlwaysCallable holds }
{
    // A loop: the stop would be an Err of try_for_each beside that of memory.
    for fill in [165, 90] {
        let bytes = vec![in alloc; fill; room]?;
        let mut area = Area { bytes, fill };
        if !holds(&mut area) {
            return Ok(false);
        }
    }
    Ok(true)
}
