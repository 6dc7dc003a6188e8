// Opening with groups of a given length: row 30, then 10 to 16, then 28. The length stays a number with its fact: a type for it would ask
// each caller to make it first. The bytes are lent by the caller, since the library has no heap.
ghost use Rattle.std.specs.Prelude.{◌≡◌, ◌+◌, ◌≤◌, length, IfOk};
ghost use Rattle.layout.specs.Layout.{max_blocks};
ghost use Rattle.layout.specs.Refusals.{no_of};
ghost use Rattle.layout.specs.Versions.{version_no};
ghost use Rattle.store.specs.Facts.{GroupLenOk};
ghost use Rattle.directory.specs.Read.{directory_no};
ghost use Rattle.index.specs.Parts.{len_of_directory, directory_part, count_in};
ghost use Rattle.index.specs.Opening.{footer_no, group_records_bad, open_def, least_terms};

use index::SSTableIndexV3;
use layout::refusals::Refusal;
use layout::{META_LEN, versions};
use store::grouping::Grouping;
use store_read::BlockAddrStore;

const FOOTER_LEN: usize = 8;

// Rows 10 and 11, and the directory's length where neither is hit.
fn check_footer(data: &[u8]) -> Result<usize, Refusal>
    ensures number { no_of result ≡ footer_no «data».now }
    ensures value { IfOk result (λ len. len ≡ len_of_directory «data».now) }
{
    let len = data.len();
    if len < FOOTER_LEN {
        return Err(Refusal::FileShort);
    }
    let directory = serialize::deserialize_u64(data, len - FOOTER_LEN);
    if directory == 0 {
        return Err(Refusal::NoDirectory);
    }
    if layout::ends_beyond(directory, 16, len as u64) {
        return Err(Refusal::FileShort);
    }
    Ok(directory as usize)
}

// Row 14: whether the records' length isn't that of the groups of n blocks, or is beyond the store.
fn records_bad(data: &[u8], directory_len: usize, n: usize, group_len: usize) -> bool
    requires { GroupLenOk group_len
        × (directory_len ≡ len_of_directory «data».now)
        × (directory_len + 16 ≤ length «data».now)
        × (n ≡ count_in «data».now)
        × (n ≤ max_blocks) }
    ensures { result ≡ group_records_bad group_len «data».now }
{
    let metas_len = META_LEN * Grouping { n, group_len }.group_count();
    serialize::deserialize_u64(data, directory_len) != metas_len as u64
        || data.len() - FOOTER_LEN - directory_len < 8 + metas_len
}

// Rows 14 to 16 and the record with the least number of terms, after a directory that keeps the rows before them.
fn load_store(
    version: u64,
    data: &[u8],
    directory_len: usize,
    group_len: usize,
) -> Result<SSTableIndexV3, Refusal>
    requires { GroupLenOk group_len
        × (footer_no «data».now ≡ 0)
        × (directory_len ≡ len_of_directory «data».now)
        × (directory_no (directory_part «data».now) ≡ 0)
        × (version_no version ≡ 0) }
    ensures { result ≡ open_def group_len version (least_terms group_len «data».now) «data».now }
{
    let n = serialize::deserialize_u32(data, 0) as usize;
    if records_bad(data, directory_len, n, group_len) {
        return Err(Refusal::RecordsBad);
    }
    let metas_len = serialize::deserialize_u64(data, directory_len) as usize;
    let metas = directory_len + 8;
    let addrs = metas + metas_len;
    let end = data.len() - FOOTER_LEN;
    let last = store_check::check(&BlockAddrStore {
        metas: &data[metas..addrs],
        addrs: &data[addrs..end],
        n,
        group_len,
    })?;
    Ok(SSTableIndexV3 {
        n,
        directory: 0,
        directory_len,
        metas,
        metas_len,
        addrs,
        addrs_len: end - addrs,
        terms: last + 1,
        version,
    })
}

// Opens the bytes of an index of this version with groups of `group_len` blocks and the least number of terms: rows 30 and 10 to 16 alone.
pub fn load_least(version: u64, data: &[u8], group_len: usize) -> Result<SSTableIndexV3, Refusal>
    requires { GroupLenOk group_len }
    ensures { result ≡ open_def group_len version (least_terms group_len «data».now) «data».now }
{
    versions::check_version(version)?;
    let directory_len = check_footer(data)?;
    directory_check::directory_no(&data[..directory_len])?;
    load_store(version, data, directory_len, group_len)
}

// Opens the bytes of an index of this version that has so many terms, with groups of `group_len` blocks.
pub fn load(
    version: u64,
    terms: u64,
    data: &[u8],
    group_len: usize,
) -> Result<SSTableIndexV3, Refusal>
    requires { GroupLenOk group_len }
    ensures { result ≡ open_def group_len version terms «data».now }
{
    let least = load_least(version, data, group_len)?;
    if terms < least.terms {
        return Err(Refusal::TermsBad);
    }
    Ok(SSTableIndexV3 { terms, ..least })
}
