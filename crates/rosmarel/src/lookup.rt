// Opening an index, and its lookups.
ghost use Rattle.std.specs.Prelude.{◌≡◌};
ghost use Rattle.index.specs.Opening.{load_def};
ghost use Rattle.index.specs.Answers.{load_no, load_opened, place_offset, place_len};
ghost use Rattle.index.specs.Lookups.{GetBlock, LocateWithOrd, LocateWithKey, GetBlockWithKey, place_def};
ghost use Rattle.canonical.specs.Canonical.{check_no};
ghost use Rattle.batch.specs.Batch.{LocateWithKeys};
ghost use Rattle.index.specs.Words.{opened_words, opened_at};
ghost use Rattle.rosmarel.specs.Answers.{block_with};

use crate::answers::{put_address, put_count, put_located};
use index::SSTableIndexV3;
use layout::refusals;

// Opens the bytes of an index of this version that anyone may have written, and that has so many terms.
#[unsafe(no_mangle)]
pub extern "C" fn rosmarel_open(
    version: u64,
    terms: u64,
    index: &[u8],
    opened: &mut [u64; 9],
) -> u32
    ensures value { result ≡ load_no (load_def version terms index.now) }
    ensures opened_after { opened.new ≡ opened_words (load_opened (load_def version terms index.now)) }
{
    let loaded = index_load::load(version, terms, index);
    *opened = <[u64; 9]>::from(loaded.unwrap_or_default());
    refusals::number(loaded)
}

// Whether the bytes are the index of this version that finish makes from the blocks and separators read in them: 0, or 27; for bytes that
// hit one of rows 10 to 16 the first of these.
#[unsafe(no_mangle)]
pub extern "C" fn rosmarel_check_canonical(version: u64, index: &[u8]) -> u32
    ensures { result ≡ check_no version index.now }
{
    refusals::number(canonical::check_canonical(version, index))
}

// The address of block `id`.
#[unsafe(no_mangle)]
pub extern "C" fn rosmarel_get_block(
    index: &[u8],
    opened: &[u64; 9],
    id: u64,
    start: &mut u64,
    end: &mut u64,
    first_ordinal: &mut u64,
) -> u32
    ensures { GetBlock index.now (opened_at opened.now) id result
        (block_with start.new end.new first_ordinal.new) }
{
    let block = index_lookup::get_block(SSTableIndexV3::from(*opened), index, id);
    put_address(block.unwrap_or_default(), start, end, first_ordinal);
    refusals::number(block)
}

// The block that holds the ordinal, with its address; none from the number of terms on.
#[unsafe(no_mangle)]
pub extern "C" fn rosmarel_locate_with_ord(
    index: &[u8],
    opened: &[u64; 9],
    ord: u64,
    id: &mut u64,
    start: &mut u64,
    end: &mut u64,
    first_ordinal: &mut u64,
) -> u32
    ensures { LocateWithOrd index.now (opened_at opened.now) ord result id.new
        (block_with start.new end.new first_ordinal.new) }
{
    let found = index_lookup::locate_with_ord(SSTableIndexV3::from(*opened), index, ord);
    put_located(found, id, start, end, first_ordinal)
}

// The block that may hold the key.
#[unsafe(no_mangle)]
pub extern "C" fn rosmarel_locate_with_key(
    index: &[u8],
    opened: &[u64; 9],
    key: &[u8],
    id: &mut u64,
) -> u32
    ensures { LocateWithKey index.now (opened_at opened.now) key.now result id.new }
{
    let found = index_lookup::locate_with_key(SSTableIndexV3::from(*opened), index, key);
    put_count(found, id)
}

// The blocks that may hold up to 64 keys: pairs of offset and length over `keys`, an id each at the front of `ids`.
// A key above the last separator gets NO_ID, an id that no block has, since C has no Option.
#[unsafe(no_mangle)]
pub extern "C" fn rosmarel_locate_with_keys(
    index: &[u8],
    opened: &[u64; 9],
    pairs: &[u64],
    keys: &[u8],
    ids: &mut [u64],
) -> u32
    ensures { LocateWithKeys index.now (opened_at opened.now) pairs.now keys.now
        ids.old ids.new result }
{
    let opened = SSTableIndexV3::from(*opened);
    refusals::number(batch::locate_with_keys(opened, index, pairs, keys, ids))
}

// The block that may hold the key, with its address.
#[unsafe(no_mangle)]
pub extern "C" fn rosmarel_get_block_with_key(
    index: &[u8],
    opened: &[u64; 9],
    key: &[u8],
    id: &mut u64,
    start: &mut u64,
    end: &mut u64,
    first_ordinal: &mut u64,
) -> u32
    ensures { GetBlockWithKey index.now (opened_at opened.now) key.now result id.new
        (block_with start.new end.new first_ordinal.new) }
{
    let found = index_lookup::get_block_with_key(SSTableIndexV3::from(*opened), index, key);
    put_located(found, id, start, end, first_ordinal)
}

// Where the separator of block `id` stands in the index: an unknown id, or a hit on row 20, is 0 and 0.
#[unsafe(no_mangle)]
pub extern "C" fn rosmarel_separator(
    index: &[u8],
    opened: &[u64; 9],
    id: u64,
    offset: &mut u64,
    len: &mut u64,
)
    ensures offset_after { offset.new ≡ place_offset (place_def (opened_at opened.now) index.now id) }
    ensures len_after { len.new ≡ place_len (place_def (opened_at opened.now) index.now id) }
{
    let place = index_lookup::separator_place(SSTableIndexV3::from(*opened), index, id);
    let (from, long) = place.unwrap_or((0, 0));
    *offset = from as u64;
    *len = long as u64;
}
