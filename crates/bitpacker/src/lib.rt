// Fields of bits in slices of bytes: `extract_bits` of src/index/v3.rs, and the missing `compute_num_bits` and `BitPacker`.
#![tactic(auto)]

ghost use Rattle.std.specs.Prelude.{◌≡◌, ◌+◌, ◌*◌, ◌/◌, ◌%◌, ◌^◌, ◌≤◌, ◌<◌, length};
ghost use Rattle.std.proofs.lemmas.List.Edits.{sets};
ghost use Rattle.serialize.specs.Digits.{le_val, number_at, le_bytes};
ghost use Rattle.bitpacker.specs.Bits.{num_bits_of, bytes_of};
ghost use Rattle.bitpacker.specs.Packer.{Waiting, leaving, packed_with};

// How many bits a number takes: 64 for every one that takes more than 56.
pub fn compute_num_bits(value: u64) -> u8
    ensures { result ≡ num_bits_of value }
{
    let amplitude = 64 - value.leading_zeros();
    if amplitude <= 56 { amplitude as u8 } else { 64 }
}

// The number that the last bytes spell, fewer than four. Each count has its own loads: with one loop over the bytes a field at the end
// takes 77 instructions in place of 51, and one elsewhere 60 in place of 47 (callgrind).
fn load_few(rest: &[u8]) -> u64
    requires { length rest.now < 4 }
    ensures value { result ≡ le_val rest.now }
    ensures upper_bound { result < 2 ^ 24 }
{
    let left = rest.len();
    if left >= 3 {
        return serialize::deserialize_le(rest, 0, 3);
    }
    if left >= 2 {
        return serialize::deserialize_le(rest, 0, 2);
    }
    if left >= 1 {
        return serialize::deserialize_le(rest, 0, 1);
    }
    0
}

// The number that the last bytes spell, fewer than eight: four at once, then the rest. It is short, so that it can be copied to
// where a field is read.
fn load_tail(rest: &[u8]) -> u64
    requires { length rest.now < 8 }
    ensures { result ≡ le_val rest.now }
{
    if rest.len() < 4 {
        return load_few(rest);
    }
    let low = serialize::deserialize_le(rest, 0, 4);
    low + 0x1_0000_0000 * load_few(&rest[4..])
}

// The number that the eight bytes from `at` on spell, or those that are left.
fn load(data: &[u8], at: usize) -> u64
    requires { at ≤ length «data».now }
    ensures { result ≡ number_at «data».now at 8 }
{
    let rest = &data[at..];
    if rest.len() >= 8 {
        serialize::deserialize_u64(rest, 0)
    } else {
        load_tail(rest)
    }
}

// The field of `num_bits` bits from bit `addr_bits` on. Bits behind the last byte are 0.
pub fn extract_bits(data: &[u8], addr_bits: u16, num_bits: u8) -> u64
    requires { (num_bits ≤ 56) × (addr_bits / 8 ≤ length «data».now) }
    ensures { result ≡ le_val «data».now / 2 ^ addr_bits % 2 ^ num_bits }
{
    let unshifted = load(data, usize::from(addr_bits / 8));
    (unshifted >> (addr_bits % 8)) & ((1u64 << num_bits) - 1)
}

// A writer of fields: `written` bytes are out, and `buffer` holds the `filled` bits after them. The output is lent to each call: each law
// of a writer that held it would speak of two values of the output.
#[derive(Clone, Copy, Default)]
pub struct BitPacker {
    pub buffer: u64,
    pub filled: usize,
    pub written: usize,
}

impl BitPacker {
    pub fn new() -> BitPacker
        ensures { (result.buffer ≡ 0) × (result.filled ≡ 0) × (result.written ≡ 0) }
    {
        BitPacker::default()
    }

    // Appends a field of `num_bits` bits.
    pub fn write(self, value: u64, num_bits: u8, out: &mut [u8]) -> BitPacker
        requires { Waiting self × (num_bits ≤ 56) × (value < 2 ^ num_bits)
            × (8 * self.written + self.filled + num_bits ≤ 8 * length out.old) }
        ensures { (result ≡ packed_with self value num_bits)
            × (out.new ≡ sets out.old self.written (leaving self value num_bits)) }
    {
        let filled = self.filled;
        let written = self.written;
        let total = filled + usize::from(num_bits);
        let word = self.buffer | (value << filled);
        if total < 64 {
            return BitPacker {
                buffer: word,
                filled: total,
                written,
            };
        }
        serialize::serialize_u64(out, written, word);
        BitPacker {
            buffer: value >> (64 - filled),
            filled: total - 64,
            written: written + 8,
        }
    }

    // Writes what waits, the last byte filled with zeros. Returns how many bytes there are.
    pub fn flush(self, out: &mut [u8]) -> usize
        requires { Waiting self × (self.written + bytes_of self.filled ≤ length out.old) }
        ensures { (result ≡ self.written + bytes_of self.filled)
            × (out.new ≡ sets out.old self.written (le_bytes (bytes_of self.filled) self.buffer)) }
    {
        let written = self.written;
        let num_bytes = self.filled.div_ceil(8);
        serialize::serialize_le(out, written, num_bytes, self.buffer);
        written + num_bytes
    }
}
