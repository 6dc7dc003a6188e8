// Little-endian numbers in slices of bytes: the Rust's `BinarySerializable` for u16, u32 and u64. Here and in each crate of the library
// bytes and room are lent slices, since it has no heap.
#![tactic(auto)]

ghost use Rattle.std.specs.Prelude.{◌≡◌, ◌+◌, ◌*◌, ◌^◌, ◌≤◌, ◌<◌, length};
ghost use Rattle.std.proofs.lemmas.List.Edits.{sets};
ghost use Rattle.serialize.specs.Digits.{number_at, le_bytes};

// The number that the `width` bytes from `at` on spell.
pub fn deserialize_le(bytes: &[u8], at: usize, width: usize) -> u64
    requires { (width ≤ 8) × (at + width ≤ length bytes.now) }
    ensures value { result ≡ number_at bytes.now at width }
    ensures upper_bound { result < 2 ^ (8 * width) }
{
    let mut value: u64 = 0;
    for (i, byte) in bytes[at..at + width].iter().enumerate() {
        value |= u64::from(*byte) << (8 * i);
    }
    value
}

// Writes the `width` lowest bytes of `value` from `at` on. By hand: std's to_le_bytes gives a number's own width, and here it is any,
// also above 8.
pub fn serialize_le(out: &mut [u8], at: usize, width: usize, value: u64)
    requires { at + width ≤ length out.old }
    ensures { out.new ≡ sets out.old at (le_bytes width value) }
{
    let mut rest = value;
    for byte in &mut out[at..at + width] {
        *byte = (rest & 255) as u8;
        rest >>= 8;
    }
}

// Twins by a type, kept: a trait would repeat these one-line bodies in three impls. std's from_le_bytes takes an array, so that a
// slice would need first_chunk and a case for the bytes that aren't there. Each asks for the bytes of its own width: a struct of slice
// and place would be made and taken apart at each call.
pub fn deserialize_u64(bytes: &[u8], at: usize) -> u64
    requires { at + 8 ≤ length bytes.now }
    ensures { result ≡ number_at bytes.now at 8 }
{
    deserialize_le(bytes, at, 8)
}

pub fn deserialize_u32(bytes: &[u8], at: usize) -> u32
    requires { at + 4 ≤ length bytes.now }
    ensures { result ≡ number_at bytes.now at 4 }
{
    deserialize_le(bytes, at, 4) as u32
}

pub fn deserialize_u16(bytes: &[u8], at: usize) -> u16
    requires { at + 2 ≤ length bytes.now }
    ensures { result ≡ number_at bytes.now at 2 }
{
    deserialize_le(bytes, at, 2) as u16
}

pub fn serialize_u64(out: &mut [u8], at: usize, value: u64)
    requires { at + 8 ≤ length out.old }
    ensures { out.new ≡ sets out.old at (le_bytes 8 value) }
{
    serialize_le(out, at, 8, value)
}

pub fn serialize_u32(out: &mut [u8], at: usize, value: u32)
    requires { at + 4 ≤ length out.old }
    ensures { out.new ≡ sets out.old at (le_bytes 4 value) }
{
    serialize_le(out, at, 4, u64::from(value))
}

pub fn serialize_u16(out: &mut [u8], at: usize, value: u16)
    requires { at + 2 ≤ length out.old }
    ensures { out.new ≡ sets out.old at (le_bytes 2 value) }
{
    serialize_le(out, at, 2, u64::from(value))
}
