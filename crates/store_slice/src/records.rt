// A list of block records as a writer goes over it, whatever holds them.
ghost use Rattle.std.specs.Prelude.{◌≡◌, ◌<◌, List, length};
ghost use Rattle.group.specs.declared.BlockAddr.{BlockAddr as Block};
ghost use Rattle.group.specs.Blocks.{block_of};

use group::BlockAddr;

pub trait Records {
    ghost blocks: { Self → List Block };

    // How many records there are.
    fn count(&self) -> usize
        ensures { result ≡ length (blocks self.now) };

    // Record i.
    fn block(&self, i: usize) -> BlockAddr
        requires { i < length (blocks self.now) }
        ensures { result ≡ block_of (blocks self.now) i };
}

// Records in a slice of blocks.
#[derive(Clone, Copy)]
pub struct Structs<'a> {
    pub blocks: &'a [BlockAddr],
}

impl<'a> Records for Structs<'a> {
    ghost blocks = { λ s. s.blocks.now };

    fn count(&self) -> usize {
        self.blocks.len()
    }

    #[inline]
    fn block(&self, i: usize) -> BlockAddr {
        self.blocks[i]
    }
}
