// The rules of blocks.
ghost use Rattle.std.specs.Prelude.{◌≡◌};
ghost use Rattle.group.specs.Rows.{are_numbers_bad, is_join_bad, is_ordinal_bad};

use crate::BlockAddr;

// Ends and ordinals are below it.
pub const LIMIT: u64 = 0x80_0000_0000_0000;

impl BlockAddr {
    // Whether its own numbers break row 3.
    #[tactic(auto, unfolding(crate::specs::Rows::are_numbers_bad, crate::specs::Legal::limit))]
    pub fn numbers_bad(self) -> bool
        ensures { result ≡ are_numbers_bad self }
    {
        self.end < self.start || self.end >= LIMIT || self.first_ordinal >= LIMIT
    }

    // Whether it doesn't start where the block before it ends (row 4).
    #[tactic(auto, unfolding(crate::specs::Rows::is_join_bad))]
    pub fn join_bad(self, before: BlockAddr) -> bool
        ensures { result ≡ is_join_bad before self }
    {
        self.start != before.end
    }

    // Whether its first ordinal isn't above that of the block before it (row 5).
    #[tactic(auto, unfolding(crate::specs::Rows::is_ordinal_bad))]
    pub fn ordinal_bad(self, before: BlockAddr) -> bool
        ensures { result ≡ is_ordinal_bad before self }
    {
        self.first_ordinal <= before.first_ordinal
    }
}
