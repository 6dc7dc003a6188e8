// Rows 3, 4, 5 and 7 over the records of a list, one after the other.
ghost use Rattle.std.specs.Prelude.{◌≡◌};
ghost use Rattle.layout.specs.Refusals.{no_of};
ghost use Rattle.store_slice.specs.Records.{seen_with, seen_number};

use group::BlockAddr;
use layout::MAX_BLOCKS;
use layout::refusals::Refusal;

// The last of the records seen so far, and whether they break rows 3, 4 and 5. A flag for each row and not the first row hit, since
// row 3 of any record comes before row 4 of an earlier one; the flags are or-ed without a branch on a row.
#[derive(Clone, Copy, Default)]
pub struct Seen {
    pub last: Option<BlockAddr>,
    pub numbers_bad: bool,
    pub join_bad: bool,
    pub ordinal_bad: bool,
}

impl Seen {
    // One record more.
    #[tactic(auto, unfolding(crate::specs::Records::seen_with))]
    pub fn with(self, block: BlockAddr) -> Seen
        ensures { result ≡ seen_with self block }
    {
        let mut seen = self;
        seen.last = Some(block);
        seen.numbers_bad |= block.numbers_bad();
        if let Some(before) = self.last {
            seen.join_bad |= block.join_bad(before);
            seen.ordinal_bad |= block.ordinal_bad(before);
        }
        seen
    }

    // The first row that these n records hit, if they hit one.
    #[tactic(auto, unfolding(crate::specs::Records::seen_number))]
    pub fn check(self, n: usize) -> Result<(), Refusal>
        ensures { no_of result ≡ seen_number self n }
    {
        if self.numbers_bad {
            return Err(Refusal::NumbersBad);
        }
        if self.join_bad {
            return Err(Refusal::JoinBad);
        }
        if self.ordinal_bad {
            return Err(Refusal::OrdinalBad);
        }
        if n > MAX_BLOCKS {
            return Err(Refusal::RoomBad);
        }
        Ok(())
    }
}
