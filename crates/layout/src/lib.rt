// Lengths and limits of the layouts, and the numbers of refusals, each in one place: writers and readers rest on these.
#![tactic(auto)]

ghost use Rattle.std.specs.Prelude.{◌≡◌, ◌+◌, ltb};

pub mod refusals;
pub mod versions;

// The most blocks that an index has.
pub const MAX_BLOCKS: usize = 65536;

// The blocks of a group in an index of version 3 and of version 4; the last group may have fewer.
pub const STORE_BLOCK_LEN: usize = 128;

pub const STORE_BLOCK_LEN_V4: usize = 256;

// The bytes of a group record.
pub const META_LEN: usize = 36;

// The bytes of a key's pair in the directory: its offset, then its length.
pub const PAIR_LEN: usize = 8;

// The most bytes of a key.
pub const MAX_KEY_LEN: usize = 1024;

// The most keys of a batch.
pub const MAX_BATCH_KEYS: usize = 64;

// Whether `len` bytes from `offset` on end beyond `room` bytes, whatever the numbers are.
#[inline]
pub fn ends_beyond(offset: u64, len: u64, room: u64) -> bool
    ensures { result ≡ ltb room (offset + len) }
{
    offset.checked_add(len).is_none_or(|end| end > room)
}
