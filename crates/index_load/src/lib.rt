// Opening the bytes of an index.
#![tactic(auto)]

pub mod grouped;

ghost use Rattle.std.specs.Prelude.{◌≡◌};
ghost use Rattle.index.specs.Opening.{load_def, load_least_def};

use index::SSTableIndexV3;
use layout::refusals::Refusal;
use layout::versions;

// Opens the bytes of an index of this version that anyone may have written, and that has so many terms. The bytes don't say which
// version they are of.
pub fn load(version: u64, terms: u64, data: &[u8]) -> Result<SSTableIndexV3, Refusal>
    ensures { result ≡ load_def version terms «data».now }
{
    grouped::load(version, terms, data, versions::group_len(version))
}

// The same with the least number of terms, for a file of which nobody knows it.
pub fn load_least(version: u64, data: &[u8]) -> Result<SSTableIndexV3, Refusal>
    ensures { result ≡ load_least_def version «data».now }
{
    grouped::load_least(version, data, versions::group_len(version))
}
