// The line that a group's starts lie near, and that of its ordinals.
ghost use Rattle.std.specs.Prelude.{◌≤◌, ◌<◌};
ghost use Rattle.group.specs.Legal.{limit};

// A value's field says how far it is from the line that rises by the slope from the first value on, in `nbits` bits.
#[derive(Clone, Copy, Debug, PartialEq, Eq)]
pub struct Line {
    pub first: u64,
    pub slope: u32,
    pub nbits: u8,
    pub ghost ok: { (first < limit) × (1 ≤ nbits) × (nbits ≤ 56) },
}
