// The group record: its bytes, and how many bytes its group's bits take.
ghost use Rattle.std.specs.Prelude.{◌≡◌, ◌+◌, ◌≤◌, ◌<◌, length};
ghost use Rattle.std.proofs.lemmas.List.Edits.{sets};
ghost use Rattle.layout.specs.Layout.{max_group_len, meta_len};
ghost use Rattle.bitpacker.specs.Bits.{bytes_of};
ghost use Rattle.bitpacker.specs.Fields.{group_bits};
ghost use Rattle.group.specs.Legal.{limit};
ghost use Rattle.group.specs.Meta.{meta_bytes, metadata_at};
ghost use Rattle.group.specs.Read.{first_values_bad};

use crate::BlockAddrBlockMetadata;
use crate::bits::Widths;
use crate::line::Line;
use crate::rows::LIMIT;

// A record as read may hold any numbers, which row 15 and row 16 then test. So no ghost field bounds them, it isn't made of two Lines,
// and `widths`, `ranges`, `ordinals` and `addr_len` each ask for what they need.
impl BlockAddrBlockMetadata {
    // Writes the record's 36 bytes from `at` on.
    pub fn serialize(&self, out: &mut [u8], at: usize)
        requires { at + meta_len ≤ length out.old }
        ensures { out.new ≡ sets out.old at (meta_bytes self.now) }
    {
        serialize::serialize_u64(out, at, self.offset);
        serialize::serialize_u64(out, at + 8, self.range_start);
        serialize::serialize_u64(out, at + 16, self.first_ordinal);
        serialize::serialize_u32(out, at + 24, self.range_start_slope);
        serialize::serialize_u32(out, at + 28, self.first_ordinal_slope);
        out[at + 32] = self.first_ordinal_nbits;
        out[at + 33] = self.range_start_nbits;
        serialize::serialize_u16(out, at + 34, self.block_len);
    }

    // The record whose 36 bytes stand at `at`.
    #[tactic(auto, unfolding(crate::specs::Meta::metadata_at))]
    pub fn deserialize(bytes: &[u8], at: usize) -> BlockAddrBlockMetadata
        requires { at + meta_len ≤ length bytes.now }
        ensures { result ≡ metadata_at bytes.now at }
    {
        BlockAddrBlockMetadata {
            offset: serialize::deserialize_u64(bytes, at),
            range_start: serialize::deserialize_u64(bytes, at + 8),
            first_ordinal: serialize::deserialize_u64(bytes, at + 16),
            range_start_slope: serialize::deserialize_u32(bytes, at + 24),
            first_ordinal_slope: serialize::deserialize_u32(bytes, at + 28),
            first_ordinal_nbits: bytes[at + 32],
            range_start_nbits: bytes[at + 33],
            block_len: serialize::deserialize_u16(bytes, at + 34),
        }
    }

    // Row 16 for the group's first values: whether one is out of range.
    #[tactic(auto, unfolding(crate::specs::Legal::limit))]
    #[inline]
    pub fn first_values_bad(&self) -> bool
        ensures { result ≡ first_values_bad self.now }
    {
        self.range_start >= LIMIT || self.first_ordinal >= LIMIT
    }

    // The widths of the group's fields.
    pub fn widths(&self) -> Widths
        requires { (self.now.range_start_nbits ≤ 56) × (self.now.first_ordinal_nbits ≤ 56) }
        ensures { (result.range ≡ self.now.range_start_nbits) × (result.ordinal ≡ self.now.first_ordinal_nbits) }
    {
        Widths {
            range: self.range_start_nbits,
            ordinal: self.first_ordinal_nbits,
        }
    }

    // The line of the starts.
    pub fn ranges(&self) -> Line
        requires { (self.now.range_start < limit) × (1 ≤ self.now.range_start_nbits) × (self.now.range_start_nbits ≤ 56) }
        ensures { (result.first ≡ self.now.range_start) × (result.slope ≡ self.now.range_start_slope)
            × (result.nbits ≡ self.now.range_start_nbits) }
    {
        Line {
            first: self.range_start,
            slope: self.range_start_slope,
            nbits: self.range_start_nbits,
        }
    }

    // The line of the ordinals.
    pub fn ordinals(&self) -> Line
        requires { (self.now.first_ordinal < limit) × (1 ≤ self.now.first_ordinal_nbits) × (self.now.first_ordinal_nbits ≤ 56) }
        ensures { (result.first ≡ self.now.first_ordinal) × (result.slope ≡ self.now.first_ordinal_slope)
            × (result.nbits ≡ self.now.first_ordinal_nbits) }
    {
        Line {
            first: self.first_ordinal,
            slope: self.first_ordinal_slope,
            nbits: self.first_ordinal_nbits,
        }
    }

    // How many bytes the group's bits take.
    pub fn addr_len(&self) -> usize
        requires { (self.now.range_start_nbits ≤ 56) × (self.now.first_ordinal_nbits ≤ 56) × (self.now.block_len < max_group_len) }
        ensures { result ≡ bytes_of (group_bits self.now.range_start_nbits self.now.first_ordinal_nbits self.now.block_len) }
    {
        let bits = self.widths().group_bits(usize::from(self.block_len));
        usize::from(bits.div_ceil(8))
    }
}
