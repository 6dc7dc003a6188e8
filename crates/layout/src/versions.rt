// The versions of an index: they differ in the length of a group alone, and no file says which it is.
ghost use Rattle.std.specs.Prelude.{◌≡◌, ◌≤◌};
ghost use Rattle.layout.specs.Layout.{store_block_len, max_group_len};
ghost use Rattle.layout.specs.Refusals.{no_of};
ghost use Rattle.layout.specs.Versions.{version_bad, version_no, group_len_of};

use crate::refusals::Refusal;
use crate::{STORE_BLOCK_LEN, STORE_BLOCK_LEN_V4};

// Groups of 128 blocks.
pub const SSTABLE_INDEX_V3: u64 = 3;

// Groups of 256 blocks.
pub const SSTABLE_INDEX_V4: u64 = 4;

// Whether no index has this version.
#[inline]
#[tactic(auto, unfolding(crate::specs::Versions::version_bad))]
pub fn version_bad(version: u64) -> bool
    ensures { result ≡ version_bad version }
{
    !(version == SSTABLE_INDEX_V3 || version == SSTABLE_INDEX_V4)
}

// Row 30.
#[tactic(auto, unfolding(crate::specs::Versions::version_no))]
pub fn check_version(version: u64) -> Result<(), Refusal>
    ensures { no_of result ≡ version_no version }
{
    if version_bad(version) {
        return Err(Refusal::VersionBad);
    }
    Ok(())
}

// The blocks of a group in an index of a version, which the caller tests. One of two powers of two, so that a compiler that sees
// them divides by shifting.
#[inline]
#[tactic(auto, unfolding(crate::specs::Versions::group_len_of))]
pub fn group_len(version: u64) -> usize
    ensures { (result ≡ group_len_of version) × (store_block_len ≤ result) × (result ≤ max_group_len) }
{
    if version == SSTABLE_INDEX_V3 {
        STORE_BLOCK_LEN
    } else {
        STORE_BLOCK_LEN_V4
    }
}
