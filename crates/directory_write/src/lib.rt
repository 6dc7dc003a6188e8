// Writing a directory: its length, its pairs, its keys.
#![tactic(auto)]

ghost use Rattle.std.specs.Prelude.{◌≡◌, ◌+◌, ◌-◌, ◌*◌, ◌≤◌, ◌<◌, length};
ghost use Rattle.std.proofs.lemmas.List.Edits.{sets};
ghost use Rattle.directory.specs.Directory.{directory_bytes, pairs, key_bytes};
ghost use Rattle.directory.specs.Facts.{KeysArea};

use layout::PAIR_LEN;

// The keys of n records of `stride` numbers in a lent area: at place `field` a record has its key's offset in the bytes of all keys, and
// behind it the key's length. Both areas are the caller's: the library has no heap for keys of its own.
#[derive(Clone, Copy)]
pub struct KeyRecords<'a> {
    pub area: &'a [u64],
    pub stride: usize,
    pub field: usize,
    pub keys: &'a [u8],
    pub n: usize,
    pub ghost stand: { KeysArea area.now stride field keys.now n },
}

impl<'a> KeyRecords<'a> {
    ghost use Rattle.directory_write.specs.Records.{record_key, record_keys};

    // Key i. As builder's `place_at` and `KeyPlace::key` have it: this crate doesn't stand on builder, and knows none of its records.
    fn key(&self, i: usize) -> &'a [u8]
        requires { i < self.now.n }
        ensures { result.now ≡ record_key self.now i }
    {
        let at = self.stride * i + self.field;
        let from = self.area[at] as usize;
        let end = from + self.area[at + 1] as usize;
        &self.keys[from..end]
    }

    // How many bytes the keys take.
    fn keys_len(&self) -> usize
        ensures { result ≡ length (key_bytes (record_keys self.now)) }
    {
        (0..self.n).map(|i| self.key(i).len()).sum()
    }

    // How many bytes the directory takes.
    pub fn directory_len(&self) -> usize
        ensures { result ≡ length (directory_bytes (record_keys self.now)) }
    {
        4 + PAIR_LEN * self.n + self.keys_len()
    }

    // Writes the pairs from the front of `out` on. A loop here and below: each turn writes where those before it ended, so that a fold's
    // closure would have to hold `out`.
    fn write_pairs(&self, out: &mut [u8])
        requires { 8 * self.now.n ≤ length out.old }
        ensures { out.new ≡ sets out.old 0 (pairs 0 (record_keys self.now)) }
    {
        let mut offset: usize = 0;
        for i in 0..self.n {
            let len = self.key(i).len();
            serialize::serialize_u32(out, PAIR_LEN * i, offset as u32);
            serialize::serialize_u32(out, PAIR_LEN * i + 4, len as u32);
            offset += len;
        }
    }

    // Writes the keys from the front of `out` on. Returns how many bytes they take. Not inlined, so that its loop has the registers.
    #[inline(never)]
    fn write_keys(&self, out: &mut [u8]) -> usize
        requires { length (key_bytes (record_keys self.now)) ≤ length out.old }
        ensures { (result ≡ length (key_bytes (record_keys self.now)))
            × (out.new ≡ sets out.old 0 (key_bytes (record_keys self.now))) }
    {
        let mut to: usize = 0;
        for i in 0..self.n {
            to += byte_copy::copy(self.key(i), &mut out[to..]);
        }
        to
    }

    // Writes the directory from the front of `out` on. Returns its length.
    pub fn serialize(&self, out: &mut [u8]) -> usize
        requires { length (directory_bytes (record_keys self.now)) ≤ length out.old }
        ensures { (result ≡ length (directory_bytes (record_keys self.now)))
            × (out.new ≡ sets out.old 0 (directory_bytes (record_keys self.now))) }
    {
        serialize::serialize_u32(out, 0, self.n as u32);
        self.write_pairs(&mut out[4..]);
        let at = 4 + PAIR_LEN * self.n;
        at + self.write_keys(&mut out[at..])
    }
}
