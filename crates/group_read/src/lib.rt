// Reading a group: its rule, its numbers, the search by ordinal inside it.
#![tactic(auto)]

ghost use Rattle.std.specs.Prelude.{◌≡◌, ℕ, true, false, ◌+◌, ◌-◌, ◌*◌, ◌/◌, ◌%◌, ◌^◌, ◌≤◌, ◌<◌, length};
ghost use Rattle.layout.specs.Layout.{max_blocks, max_group_len};
ghost use Rattle.serialize.specs.Digits.{le_val};
ghost use Rattle.group.specs.Read.{width_bad, group_bad, value_read, range_read, ordinal_read, block_read};
ghost use Rattle.group.specs.Facts.{Readable};

use group::line::Line;
use group::rows::LIMIT;
use group::{BlockAddr, BlockAddrBlockMetadata};

// The last number below `end` at which `holds` is true, where it is true at 0, which isn't asked, and false from some number on.
#[inline(always)]
pub fn last_where<F: Fn(usize) -> bool>(end: usize, holds: F) -> usize
    requires some { 0 < end }
    requires may { (i : ℕ) → 0 < i → i < end → F.pre holds i }
    ensures within { result < end }
    ensures here { 0 < result → F.post holds result true }
    ensures next { result + 1 < end → F.post holds (result + 1) false }
{
    let mut left: usize = 0;
    let mut right = end;
    // std's partition_point goes over a slice, and here there is none.
    while left + 1 < right {
        let mid = left + (right - left) / 2;
        if holds(mid) {
            left = mid;
        } else {
            right = mid;
        }
    }
    left
}

#[tactic(auto, unfolding(group::specs::Read::width_bad))]
fn width_bad(nbits: u8) -> bool
    ensures { result ≡ width_bad nbits }
{
    !(1..=56).contains(&nbits)
}

// Whether a group that is to have `count` blocks breaks its rule in a store with `addr_len` address bytes. Widths and block count
// come first: with others the place where the last field ends needn't fit 16 bits.
#[tactic(auto, unfolding(group::specs::Read::group_bad, group::specs::Read::width_bad))]
pub fn group_bad(meta: BlockAddrBlockMetadata, count: usize, addr_len: usize) -> bool
    requires { count ≤ max_group_len }
    ensures { result ≡ group_bad meta count addr_len }
{
    if width_bad(meta.first_ordinal_nbits) || width_bad(meta.range_start_nbits) {
        return true;
    }
    usize::from(meta.block_len) + 1 != count
        || layout::ends_beyond(meta.offset, meta.addr_len() as u64, addr_len as u64)
}

// The value of field i: first + field + slope × i - 2^(nbits-1), or the limit where that is below 0. Both are out of range, so that one
// test of the value refuses them: an Option would be a second test at each caller.
fn value(line: Line, field: u64, i: usize) -> u64
    requires { (field < 2 ^ 56) × (i ≤ max_blocks) }
    ensures { result ≡ value_read line.first field line.slope i line.nbits }
{
    let sum = line.first + field + u64::from(line.slope) * (i as u64);
    let shift = 1u64 << (line.nbits - 1);
    // checked_sub and unwrap_or come to four more instructions a value, which opening and the lookups feel.
    if sum < shift { LIMIT } else { sum - shift }
}

// A block's start and first ordinal.
#[derive(Clone, Copy)]
pub struct BlockStartAddr {
    pub range_start: u64,
    pub first_ordinal: u64,
}

// A group that keeps its rule: its record, and the address bytes from the record's offset on.
#[derive(Clone, Copy)]
pub struct Group<'a> {
    pub meta: BlockAddrBlockMetadata,
    pub data: &'a [u8],
    pub ghost readable: { Readable meta (length «data».now) },
}

impl<'a> Group<'a> {
    // The value of field i of a line, which stands from bit `bit` on.
    #[inline]
    fn value_at(&self, line: Line, bit: u16, i: usize) -> u64
        requires { (bit / 8 ≤ length self.now.«data».now) × (i ≤ max_blocks) }
        ensures { result ≡ value_read line.first (le_val self.now.«data».now / 2 ^ bit % 2 ^ line.nbits) line.slope i line.nbits }
    {
        value(line, bitpacker::extract_bits(self.data, bit, line.nbits), i)
    }

    // The start of block i, or, behind the last block, its end.
    #[inline(always)]
    pub fn range_start(&self, i: usize) -> u64
        requires { i ≤ self.now.meta.block_len + 1 }
        ensures { result ≡ range_read self.now.meta (le_val self.now.«data».now) i }
    {
        if i == 0 {
            return self.meta.range_start;
        }
        self.value_at(self.meta.ranges(), self.meta.widths().range_bit(i - 1), i)
    }

    // The first ordinal of block i.
    #[inline(always)]
    pub fn first_ordinal(&self, i: usize) -> u64
        requires { i ≤ self.now.meta.block_len }
        ensures { result ≡ ordinal_read self.now.meta (le_val self.now.«data».now) i }
    {
        if i == 0 {
            return self.meta.first_ordinal;
        }
        self.value_at(
            self.meta.ordinals(),
            self.meta.widths().ordinal_bit(i - 1),
            i,
        )
    }

    // The start and the first ordinal of block i, which isn't the group's first, where their fields have at most 56 bits together: the
    // fields touch, so that one read gives both.
    pub fn block_start(&self, i: usize) -> BlockStartAddr
        requires { (0 < i) × (i ≤ self.now.meta.block_len)
            × (self.now.meta.range_start_nbits + self.now.meta.first_ordinal_nbits ≤ 56) }
        ensures { (result.range_start ≡ range_read self.now.meta (le_val self.now.«data».now) i)
            × (result.first_ordinal ≡ ordinal_read self.now.meta (le_val self.now.«data».now) i) }
    {
        let widths = self.meta.widths();
        let bit = widths.range_bit(i - 1);
        let both = bitpacker::extract_bits(self.data, bit, widths.range + widths.ordinal);
        let range = both & ((1u64 << widths.range) - 1);
        let ordinal = both >> widths.range;
        BlockStartAddr {
            range_start: value(self.meta.ranges(), range, i),
            first_ordinal: value(self.meta.ordinals(), ordinal, i),
        }
    }

    // Block i of the group, which isn't its first, where its start, ordinal and end have at most 56 bits together: the fields touch, so
    // that one read gives all three.
    #[tactic(auto, unfolding(group::specs::Read::block_read))]
    #[inline(always)]
    fn block_at_once(&self, i: usize) -> BlockAddr
        requires { (0 < i) × (i ≤ self.now.meta.block_len)
            × (2 * self.now.meta.range_start_nbits + self.now.meta.first_ordinal_nbits ≤ 56) }
        ensures { result ≡ block_read self.now.meta (le_val self.now.«data».now) i }
    {
        let widths = self.meta.widths();
        let bit = widths.range_bit(i - 1);
        let all = bitpacker::extract_bits(self.data, bit, 2 * widths.range + widths.ordinal);
        let range = all & ((1u64 << widths.range) - 1);
        let ordinal = (all >> widths.range) & ((1u64 << widths.ordinal) - 1);
        let next = all >> (widths.range + widths.ordinal);
        BlockAddr {
            start: value(self.meta.ranges(), range, i),
            end: value(self.meta.ranges(), next, i + 1),
            first_ordinal: value(self.meta.ordinals(), ordinal, i),
        }
    }

    // Block i of the group.
    #[tactic(auto, unfolding(group::specs::Read::block_read))]
    #[inline(always)]
    pub fn block(&self, i: usize) -> BlockAddr
        requires { i ≤ self.now.meta.block_len }
        ensures { result ≡ block_read self.now.meta (le_val self.now.«data».now) i }
    {
        if i > 0 && 2 * self.meta.range_start_nbits + self.meta.first_ordinal_nbits <= 56 {
            return self.block_at_once(i);
        }
        BlockAddr {
            start: self.range_start(i),
            end: self.range_start(i + 1),
            first_ordinal: self.first_ordinal(i),
        }
    }

    // The same, not inlined: a search for the block, which comes before, has the registers.
    #[inline(never)]
    pub fn deserialize_block_addr(&self, inner_offset: usize) -> BlockAddr
        requires { inner_offset ≤ self.now.meta.block_len }
        ensures { result ≡ block_read self.now.meta (le_val self.now.«data».now) inner_offset }
    {
        self.block(inner_offset)
    }

    // The last block of the group whose first ordinal is at or below `target`, if ordinals rise.
    #[tactic(auto, unfolding(group::specs::Read::ordinal_read))]
    #[inline(always)]
    pub fn bisect_for_ord(&self, target: u64) -> usize
        requires { self.now.meta.first_ordinal ≤ target }
        ensures { (result ≤ self.now.meta.block_len)
            × (ordinal_read self.now.meta (le_val self.now.«data».now) result ≤ target)
            × (result < self.now.meta.block_len → target < ordinal_read self.now.meta (le_val self.now.«data».now) (result + 1)) }
    {
        let blocks = usize::from(self.meta.block_len) + 1;
        last_where(blocks, |i| self.first_ordinal(i) <= target)
    }
}
