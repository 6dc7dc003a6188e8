// How blocks fall into groups: what writers and readers share.
ghost use Rattle.std.specs.Prelude.{◌≡◌, ◌-◌, ◌*◌, ◌≤◌, min};
ghost use Rattle.layout.specs.Layout.{max_blocks};
ghost use Rattle.store.specs.Store.{group_count};
ghost use Rattle.store.specs.Read.{len_of_group};
ghost use Rattle.store.specs.Facts.{GroupLenOk};

use layout::{STORE_BLOCK_LEN, STORE_BLOCK_LEN_V4};

// n blocks in groups of `group_len`; the last may have fewer. No ghost field bounds the two numbers, since blocks_from and
// blocks_in ask nothing of them. Readers and writers hold the two numbers themselves, since clauses and theorems name them there;
// each store makes one in a function of its own, others where they need it. `GroupLenOk` of a bare length stays a clause, since public
// functions of several crates take one, any that it holds of: a struct in its place would ask each of their callers to make it first,
// which is more than they ask now.
#[derive(Clone, Copy, Debug, PartialEq, Eq)]
pub struct Grouping {
    pub n: usize,
    pub group_len: usize,
}

impl Grouping {
    // How many groups the blocks make. The two lengths that a version has are divided by as constants.
    pub fn group_count(self) -> usize
        requires { (self.n ≤ max_blocks) × GroupLenOk self.group_len }
        ensures { result ≡ group_count self.group_len self.n }
    {
        match self.group_len {
            STORE_BLOCK_LEN => self.n.div_ceil(STORE_BLOCK_LEN),
            STORE_BLOCK_LEN_V4 => self.n.div_ceil(STORE_BLOCK_LEN_V4),
            len => self.n.div_ceil(len),
        }
    }

    // How many blocks the group from block `first` on has.
    pub fn blocks_from(self, first: usize) -> usize
        requires { first ≤ self.n }
        ensures { result ≡ min self.group_len (self.n - first) }
    {
        self.group_len.min(self.n - first)
    }

    // How many blocks group g has.
    pub fn blocks_in(self, g: usize) -> usize
        requires { self.group_len * g ≤ self.n }
        ensures { result ≡ len_of_group self.group_len self.n g }
    {
        self.blocks_from(self.group_len * g)
    }
}
