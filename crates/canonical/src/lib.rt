// Whether an index is the one that finish makes from the blocks and separators read in it.
#![tactic(auto)]

ghost use Rattle.std.specs.Prelude.{◌≡◌};
ghost use Rattle.layout.specs.Refusals.{no_of};
ghost use Rattle.layout.specs.Versions.{version_no};
ghost use Rattle.group.specs.Rows.{or_row};
ghost use Rattle.store.specs.Facts.{GroupLenOk};
ghost use Rattle.builder.specs.Index.{settings_of};
ghost use Rattle.index.specs.Opening.{OpensBy};
ghost use Rattle.canonical.specs.Canonical.{canonical_no, check_no};

use index::SSTableIndexV3;
use layout::refusals::Refusal;
use layout::versions;
use store_read::BlockAddrStore;

// Row 27 for an index that opened. The directory and the lengths can't differ from what finish writes: rows 10 to 14 leave one
// form for them. The store is cut out here, as opening and the lookups do it: the record was opened from these bytes, so nothing is
// tested, and `index`, which all three know, doesn't know store_read.
fn check_store(data: &[u8], opened: SSTableIndexV3, group_len: usize) -> Result<(), Refusal>
    requires { GroupLenOk group_len × OpensBy group_len «data».now opened }
    ensures { no_of result ≡ canonical_no (settings_of group_len) «data».now }
{
    let metas = opened.metas;
    let addrs = opened.addrs;
    let end = addrs + opened.addrs_len;
    let store = BlockAddrStore {
        metas: &data[metas..addrs],
        addrs: &data[addrs..end],
        n: opened.n,
        group_len,
    };
    if store_canonical::store_canonical(&store) {
        Ok(())
    } else {
        Err(Refusal::NotCanonical)
    }
}

// The same with groups of a given length, of which a version has one. It goes on bare, as `load` and the store take it.
fn check_grouped(version: u64, data: &[u8], group_len: usize) -> Result<(), Refusal>
    requires { GroupLenOk group_len }
    ensures { no_of result ≡ or_row (version_no version) (canonical_no (settings_of group_len) «data».now) }
{
    let opened = index_load::grouped::load_least(version, data, group_len)?;
    check_store(data, opened, group_len)
}

// Refused with opening's row for a file that doesn't open as one of this version, and with row 27 for one that opens and isn't canonical.
#[tactic(auto, unfolding(crate::specs::Canonical::check_no))]
pub fn check_canonical(version: u64, data: &[u8]) -> Result<(), Refusal>
    ensures { no_of result ≡ check_no version «data».now }
{
    check_grouped(version, data, versions::group_len(version))
}
