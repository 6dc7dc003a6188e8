// A block's record in the area: start, end and first ordinal as group::area has them, then the key's offset and length. It stays five
// numbers of an area that C lends, and the key a part of another: the library has no heap.
ghost use Rattle.std.specs.Prelude.{◌≡◌, ◌+◌, ◌*◌, ◌≤◌, length, take, drop};
ghost use Rattle.builder.specs.View.{stride};
ghost use Rattle.builder.specs.Area.{area_place};

pub const STRIDE: usize = 5;

pub const KEY_OFFSET: usize = 3;

pub const KEY_LEN: usize = 4;

// Where a block's key stands in the key area.
#[derive(Clone, Copy)]
pub struct KeyPlace {
    pub offset: u64,
    pub len: u64,
}

impl KeyPlace {
    // The key that stands there.
    #[inline(always)]
    pub fn key<'a>(self, keys: &'a [u8]) -> &'a [u8]
        requires { self.offset + self.len ≤ length keys.now }
        ensures { result.now ≡ take self.len (drop self.offset keys.now) }
    {
        let from = self.offset as usize;
        &keys[from..from + self.len as usize]
    }
}

// Where the key of block i stands.
#[inline(always)]
pub fn place_at(blocks: &[u64], i: usize) -> KeyPlace
    requires { stride * i + stride ≤ length blocks.now }
    ensures { result ≡ area_place blocks.now i }
{
    let at = STRIDE * i;
    KeyPlace {
        offset: blocks[at + KEY_OFFSET],
        len: blocks[at + KEY_LEN],
    }
}
