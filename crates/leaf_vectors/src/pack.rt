// Fields written by `BitPacker` and read back.
ghost use Rattle.std.specs.Prelude.{◌≡◌, true, cond, ◌+◌, ◌*◌, ◌%◌, ◌^◌, ◌≤◌, ◌<◌, eqb, length};
ghost use Rattle.std.proofs.lemmas.List.Edits.{sets};
ghost use Rattle.serialize.specs.Digits.{of_digits, le_bytes, DigitsBelow};
ghost use Rattle.bitpacker.specs.Bits.{bytes_of};
ghost use Rattle.bitpacker.specs.Fields.{group_val, group_bits};
ghost use Rattle.leaf_vectors.specs.Fields.{ranges, ordinals};

use bitpacker::BitPacker;

// Writes the fields, each of `width` bits. Returns how many bytes there are.
pub fn pack_fields(out: &mut [u8], fields: &[u64], width: u8) -> usize
    requires { (width ≤ 56) × DigitsBelow width fields.now × (width * length fields.now ≤ 8 * length out.old) }
    ensures { (result ≡ bytes_of (width * length fields.now))
        × (out.new ≡ sets out.old 0
        (le_bytes (bytes_of (width * length fields.now)) (of_digits width fields.now))) }
{
    let mut packer = BitPacker::new();
    // A fold's closure would have to ask, of any packer, what `write` asks of the one so far.
    for field in fields {
        packer = packer.write(*field, width, out);
    }
    packer.flush(out)
}

// Whether the field of `width` bits from bit `at` on, a place of 16 bits, is `value`.
pub fn reads(data: &[u8], at: usize, width: u8, value: u64) -> bool
    ensures { result ≡ true → at < 2 ^ 16 }
{
    if width > 56 || at / 8 > data.len() {
        return false;
    }
    u16::try_from(at).is_ok_and(|at| bitpacker::extract_bits(data, at, width) == value)
}

// The widths of fields in turn: a range's, and an ordinal's. As group's, which this program doesn't know: it tests what lies below group.
#[derive(Clone, Copy)]
pub struct Widths {
    pub range: u8,
    pub ordinal: u8,
    pub ghost few: { (range ≤ 56) × (ordinal ≤ 56) },
}

impl Widths {
    // The width of field i.
    fn at(self, i: usize) -> u8
        ensures { result ≡ cond (eqb (i % 2) 0) self.range self.ordinal }
    {
        if i % 2 == 0 { self.range } else { self.ordinal }
    }

    // Whether the fields fit.
    pub fn fit(self, fields: &[u64]) -> bool
        ensures { result ≡ true → DigitsBelow self.range (ranges fields.now) × DigitsBelow self.ordinal (ordinals fields.now) }
    {
        // By a `for`, whose invariant has each field's place: what `all` says over `enumerate` has them in pairs.
        for (i, field) in fields.iter().enumerate() {
            if *field >> self.at(i) != 0 {
                return false;
            }
        }
        true
    }

    // Writes a group's fields: `count` pairs of a range and an ordinal, then the last range. Returns how many bytes there are. The count
    // goes beside the fields, here and where it is called, since the clauses have them as so many pairs and one.
    pub fn pack_group(self, out: &mut [u8], fields: &[u64], count: usize) -> usize
        requires len { length fields.now ≡ 2 * count + 1 }
        requires digits_below { DigitsBelow self.range (ranges fields.now) × DigitsBelow self.ordinal (ordinals fields.now) }
        requires room { group_bits self.range self.ordinal count ≤ 8 * length out.old }
        ensures { (result ≡ bytes_of (group_bits self.range self.ordinal count))
            × (out.new ≡ sets out.old 0
            (le_bytes (bytes_of (group_bits self.range self.ordinal count))
            (group_val self.range self.ordinal (ranges fields.now) (ordinals fields.now)))) }
    {
        let mut packer = BitPacker::new();
        // By place, as the clauses have the fields: `as_chunks` gives pairs, and the last range apart from them.
        for i in 0..count {
            let range = fields[2 * i];
            let ordinal = fields[2 * i + 1];
            packer = packer
                .write(range, self.range, out)
                .write(ordinal, self.ordinal, out);
        }
        packer.write(fields[2 * count], self.range, out).flush(out)
    }

    // Whether `data` begins with the fields.
    pub fn read_back(self, data: &[u8], fields: &[u64]) -> bool {
        let mut at: usize = 0;
        // The turn before bounds the widths' sum so far, and a try_fold's closure doesn't know that it came.
        for (i, field) in fields.iter().enumerate() {
            let width = self.at(i);
            if !reads(data, at, width, *field) {
                return false;
            }
            at += usize::from(width);
        }
        true
    }
}
