// Where a group's fields stand in its bits, for those that write them and those that read them. A place is a number of 16 bits:
// of widths to 56 and up to 256 blocks none is higher than 28,616.
ghost use Rattle.std.specs.Prelude.{◌≡◌, ◌≤◌, ◌<◌};
ghost use Rattle.layout.specs.Layout.{max_group_len};
ghost use Rattle.bitpacker.specs.Fields.{range_bit, ordinal_bit, group_bits};

// How many bits each range field of a group takes, and each ordinal field.
#[derive(Clone, Copy, Debug, PartialEq, Eq)]
pub struct Widths {
    pub range: u8,
    pub ordinal: u8,
    pub ghost fit: { (range ≤ 56) × (ordinal ≤ 56) },
}

impl Widths {
    // The first bit of range field i.
    pub fn range_bit(self, i: usize) -> u16
        requires { i < max_group_len }
        ensures { result ≡ range_bit self.range self.ordinal i }
    {
        (u16::from(self.range) + u16::from(self.ordinal)) * i as u16
    }

    // The first bit of ordinal field i, which stands behind range field i.
    pub fn ordinal_bit(self, i: usize) -> u16
        requires { i < max_group_len }
        ensures { result ≡ ordinal_bit self.range self.ordinal i }
    {
        self.range_bit(i) + u16::from(self.range)
    }

    // The bits of all fields of a group with n blocks behind its first: the last is range field n.
    pub fn group_bits(self, n: usize) -> u16
        requires { n < max_group_len }
        ensures { result ≡ group_bits self.range self.ordinal n }
    {
        self.ordinal_bit(n)
    }
}
