// The lookups with groups of a given length, in an opened index whose record and bytes may not belong together. Record and bytes come
// apart, since C hands them so; the length is a number with its fact, since a type for it would ask each caller to make it first.
ghost use Rattle.std.specs.Prelude.{◌≡◌, true, false, ◌+◌, ◌≤◌, ◌<◌, cond, ltb, length, take, drop, MatchResult};
ghost use Rattle.layout.specs.Refusals.{number_of};
ghost use Rattle.group.specs.Legal.{NumbersOk};
ghost use Rattle.store.specs.Facts.{GroupLenOk};
ghost use Rattle.index.specs.Parts.{block_in};
ghost use Rattle.index.specs.Opening.{OpensBy};
ghost use Rattle.index.specs.Answers.{by_id_no, by_id_addr, id_no, id_of, located_no, located_id, located_addr};
ghost use Rattle.index.specs.Lookups.{opened_bad_by, OpenedFits, directory_at, metas_at, addrs_at, first_ordinal_at, place_by};
ghost use Rattle.index.specs.Lookups.{GetBlockBy, LocateWithOrdBy, LocateWithKeyBy, GetBlockWithKeyBy};

use directory_read::Directory;
use group::BlockAddr;
use index::SSTableIndexV3;
use layout::refusals::Refusal;
use layout::{MAX_BLOCKS, META_LEN, versions};
use store::Located;
use store::grouping::Grouping;
use store_read::BlockAddrStore;

// The `len` bytes from `offset` on.
fn part(data: &[u8], offset: usize, len: usize) -> &[u8]
    requires { offset + len ≤ length «data».now }
    ensures { result.now ≡ take len (drop offset «data».now) }
{
    let end = offset + len;
    &data[offset..end]
}

// Row 20 for the record: whether it can't be one of `len` bytes.
#[inline(always)]
pub fn opened_bad(opened: SSTableIndexV3, len: usize, group_len: usize) -> bool
    requires { GroupLenOk group_len }
    ensures { result ≡ opened_bad_by group_len opened len }
{
    if versions::version_bad(opened.version) {
        return true;
    }
    if !(1..=MAX_BLOCKS).contains(&opened.n) {
        return true;
    }
    let len = len as u64;
    if layout::ends_beyond(opened.directory as u64, opened.directory_len as u64, len)
        || layout::ends_beyond(opened.metas as u64, opened.metas_len as u64, len)
        || layout::ends_beyond(opened.addrs as u64, opened.addrs_len as u64, len)
    {
        return true;
    }
    let grouping = Grouping {
        n: opened.n,
        group_len,
    };
    opened.metas_len < META_LEN * grouping.group_count()
}

// An opened record with bytes that it can be one of, and the length of its groups. The bytes are lent: the library has no heap.
#[derive(Clone, Copy)]
pub struct OpenedIndex<'a> {
    pub opened: SSTableIndexV3,
    pub data: &'a [u8],
    pub group_len: usize,
    pub ghost len: { GroupLenOk group_len },
    pub ghost fits: { OpenedFits group_len opened (length «data».now) },
}

impl<'a> OpenedIndex<'a> {
    // The record with the bytes; refused with row 20 where it can't be one of them.
    #[inline(always)]
    pub fn check(
        opened: SSTableIndexV3,
        data: &'a [u8],
        group_len: usize,
    ) -> Result<OpenedIndex<'a>, Refusal>
        requires { GroupLenOk group_len }
        ensures { MatchResult result
            (λ index. (index.opened ≡ opened) × (index.«data».now ≡ «data».now) × (index.group_len ≡ group_len))
            (λ refusal. (number_of refusal ≡ 20) × (opened_bad_by group_len opened (length «data».now) ≡ true)) }
    {
        if opened_bad(opened, data.len(), group_len) {
            return Err(Refusal::Unfit);
        }
        Ok(OpenedIndex {
            opened,
            data,
            group_len,
        })
    }

    // The directory that the record names.
    #[inline(always)]
    pub fn directory(&self) -> Directory<'a>
        ensures { (result.n ≡ self.now.opened.n) × (result.bytes.now ≡ directory_at self.now.opened self.now.«data».now) }
    {
        let opened = self.opened;
        Directory {
            bytes: part(self.data, opened.directory, opened.directory_len),
            n: opened.n,
        }
    }

    // The store that the record names.
    #[inline(always)]
    fn store(&self) -> BlockAddrStore<'a>
        ensures { (result.n ≡ self.now.opened.n) × (result.group_len ≡ self.now.group_len)
            × (result.metas.now ≡ metas_at self.now.opened self.now.«data».now)
            × (result.addrs.now ≡ addrs_at self.now.opened self.now.«data».now) }
    {
        let opened = self.opened;
        BlockAddrStore {
            metas: part(self.data, opened.metas, opened.metas_len),
            addrs: part(self.data, opened.addrs, opened.addrs_len),
            n: opened.n,
            group_len: self.group_len,
        }
    }

    // Block `id`; refused with row 20 where its numbers break row 3.
    #[inline(always)]
    fn block(&self, id: usize) -> Result<BlockAddr, Refusal>
        requires { id < self.now.opened.n }
        ensures { MatchResult result
            (λ addr. NumbersOk addr × (OpensBy self.now.group_len self.now.«data».now self.now.opened
            → addr ≡ block_in self.now.group_len self.now.«data».now id))
            (λ refusal. (number_of refusal ≡ 20) × (OpensBy self.now.group_len self.now.«data».now self.now.opened → ⊥)) }
    {
        let addr = self.store().block(id);
        if addr.numbers_bad() {
            return Err(Refusal::Unfit);
        }
        Ok(addr)
    }

    // The address of block `block_id`.
    #[inline(always)]
    pub fn get_block(&self, block_id: u64) -> Result<BlockAddr, Refusal>
        ensures { GetBlockBy self.now.group_len self.now.«data».now self.now.opened block_id (by_id_no result) (by_id_addr result) }
    {
        if block_id >= self.opened.n as u64 {
            return Err(Refusal::UnknownId);
        }
        self.block(block_id as usize)
    }

    // The row of an ordinal that isn't below the number of terms: being below the first block's comes before it.
    fn no_term(&self, ord: u64) -> Refusal
        ensures { number_of result ≡ cond (ltb ord (first_ordinal_at self.now.opened self.now.«data».now)) 18 29 }
    {
        if ord < self.store().first_ordinal() {
            Refusal::OrdinalBelow
        } else {
            Refusal::OrdinalAbove
        }
    }

    // The last block whose first ordinal is at or below `ord`, if that is below the number of terms.
    #[inline(always)]
    pub fn locate_with_ord(&self, ord: u64) -> Result<Located, Refusal>
        ensures { LocateWithOrdBy self.now.group_len self.now.«data».now self.now.opened ord
            (located_no result) (located_id result) (located_addr result) }
    {
        if ord >= self.opened.terms {
            return Err(self.no_term(ord));
        }
        self.store().binary_search_ord(ord)
    }

    // The first block whose separator isn't below `key`.
    #[inline(always)]
    pub fn locate_with_key(&self, key: &[u8]) -> Result<usize, Refusal>
        ensures { LocateWithKeyBy self.now.group_len self.now.«data».now self.now.opened key.now (id_no result) (id_of result) }
    {
        self.directory().locate_with_key(key)
    }

    // The first block whose separator isn't below `key`, with its address.
    #[inline(always)]
    pub fn get_block_with_key(&self, key: &[u8]) -> Result<Located, Refusal>
        ensures { GetBlockWithKeyBy self.now.group_len self.now.«data».now self.now.opened key.now
            (located_no result) (located_id result) (located_addr result) }
    {
        // Taken apart by let .. else, and not by ?: docs/SPECIFICATION.md 19.6 asks for it.
        let found = self.directory().locate_with_key(key);
        let Ok(block_id) = found else {
            return Err(found.unwrap_err());
        };
        let addr = self.block(block_id)?;
        Ok(Located { block_id, addr })
    }

    // Where the separator of block `block_id` stands: its offset and its length.
    pub fn separator_place(&self, block_id: u64) -> Option<(usize, usize)>
        ensures { result ≡ place_by self.now.group_len self.now.opened self.now.«data».now block_id }
    {
        if block_id >= self.opened.n as u64 {
            return None;
        }
        let id = block_id as usize;
        let directory = self.directory();
        if directory.key_outside(id) {
            return None;
        }
        let position = self.opened.directory + directory.key_position(id);
        Some((position, directory.key(id).len()))
    }
}

// From here on the lookups over a record and bytes that may not belong together: docs/PROMISES.md names them, and that a record gets 20
// which can't be one of the bytes stands in `check`'s clause and the type, and here in one.

// The address of block `block_id`.
#[inline(always)]
pub fn get_block(
    opened: SSTableIndexV3,
    data: &[u8],
    group_len: usize,
    block_id: u64,
) -> Result<BlockAddr, Refusal>
    requires { GroupLenOk group_len }
    ensures { GetBlockBy group_len «data».now opened block_id (by_id_no result) (by_id_addr result) }
{
    OpenedIndex::check(opened, data, group_len)?.get_block(block_id)
}

// The last block whose first ordinal is at or below `ord`, if that is below the number of terms.
#[inline(always)]
pub fn locate_with_ord(
    opened: SSTableIndexV3,
    data: &[u8],
    group_len: usize,
    ord: u64,
) -> Result<Located, Refusal>
    requires { GroupLenOk group_len }
    ensures { LocateWithOrdBy group_len «data».now opened ord (located_no result) (located_id result) (located_addr result) }
{
    OpenedIndex::check(opened, data, group_len)?.locate_with_ord(ord)
}

// The first block whose separator isn't below `key`.
#[inline(always)]
pub fn locate_with_key(
    opened: SSTableIndexV3,
    data: &[u8],
    group_len: usize,
    key: &[u8],
) -> Result<usize, Refusal>
    requires { GroupLenOk group_len }
    ensures { LocateWithKeyBy group_len «data».now opened key.now (id_no result) (id_of result) }
{
    OpenedIndex::check(opened, data, group_len)?.locate_with_key(key)
}

// The first block whose separator isn't below `key`, with its address.
#[inline(always)]
pub fn get_block_with_key(
    opened: SSTableIndexV3,
    data: &[u8],
    group_len: usize,
    key: &[u8],
) -> Result<Located, Refusal>
    requires { GroupLenOk group_len }
    ensures { GetBlockWithKeyBy group_len «data».now opened key.now (located_no result) (located_id result) (located_addr result) }
{
    OpenedIndex::check(opened, data, group_len)?.get_block_with_key(key)
}

// Where the separator of block `block_id` stands: its offset and its length.
pub fn separator_place(
    opened: SSTableIndexV3,
    data: &[u8],
    group_len: usize,
    block_id: u64,
) -> Option<(usize, usize)>
    requires { GroupLenOk group_len }
    ensures { result ≡ place_by group_len opened «data».now block_id }
{
    OpenedIndex::check(opened, data, group_len)
        .ok()?
        .separator_place(block_id)
}
