// A directory in a file: its keys, the search for a key.
#![tactic(auto)]

ghost use Rattle.std.specs.Prelude.{◌≡◌, false, ◌+◌, ◌*◌, ◌^◌, ◌≤◌, ◌<◌, length};
ghost use Rattle.layout.specs.Layout.{max_blocks};
ghost use Rattle.serialize.specs.Digits.{number_at};
ghost use Rattle.directory.specs.Read.{key_position, key_of, key_outside};
ghost use Rattle.directory.specs.Read.{Sorted, FoundIn, FoundAs};

use layout::PAIR_LEN;
use layout::refusals::Refusal;

// The number of four bytes, as a length or a place.
pub fn number(directory: &[u8], at: usize) -> usize
    requires { at + 4 ≤ length directory.now }
    ensures { (result ≡ number_at directory.now at 4) × (result < 2 ^ 32) }
{
    serialize::deserialize_u32(directory, at) as usize
}

// The bytes of a directory, or more bytes that begin with it, and how many keys it has. The bytes stay the caller's: the library has
// no heap, so that keys are parts of them and not values of their own. That a key lies within the bytes is asked of each key: row 20 is
// tested key by key, and a type that said so would be made anew for each.
#[derive(Clone, Copy)]
pub struct Directory<'a> {
    pub bytes: &'a [u8],
    pub n: usize,
    ghost counted: { (1 ≤ n) × (n ≤ max_blocks) },
}

#[tactic(auto, unfolding(directory::specs::Read::key_outside, directory::specs::Read::FoundIn, directory::specs::Read::FoundAs))]
impl<'a> Directory<'a> {
    // Where key i begins.
    pub fn key_position(self, i: usize) -> usize
        requires { (i < self.n) × (key_outside self.bytes.now self.n i ≡ false) }
        ensures { result ≡ key_position self.entry.bytes.now self.entry.n i }
    {
        4 + PAIR_LEN * self.n + number(self.bytes, 4 + PAIR_LEN * i)
    }

    // Key i.
    pub fn key(self, i: usize) -> &'a [u8]
        requires { (i < self.n) × (key_outside self.bytes.now self.n i ≡ false) }
        ensures { result.now ≡ key_of self.entry.bytes.now self.entry.n i }
    {
        let from = self.key_position(i);
        let end = from + number(self.bytes, 8 + PAIR_LEN * i);
        &self.bytes[from..end]
    }

    // Row 20 for key i: whether its pair or the key lies outside the bytes.
    pub fn key_outside(self, i: usize) -> bool
        requires { i < self.n }
        ensures { result ≡ key_outside self.entry.bytes.now self.entry.n i }
    {
        let len = self.bytes.len();
        let at = 4 + PAIR_LEN * i;
        len < at + PAIR_LEN
            || len < 4 + PAIR_LEN * self.n + number(self.bytes, at) + number(self.bytes, at + 4)
    }

    // The first key that isn't below `key`: a binary search. The key before `left` and the key at `right` share
    // `left_shared` and `right_shared` bytes with `key`; where keys rise, those between them share at least the lesser of the two.
    // The search ends at a key equal to `key`: neither has a byte behind the shared ones.
    // No slice holds the keys, and partition_point would compare each from its first byte on.
    pub fn locate_with_key(self, key: &[u8]) -> Result<usize, Refusal>
        ensures found_in { FoundIn self.entry.n result }
        ensures found_as { Sorted self.entry.bytes.now self.entry.n
            → FoundAs (key_of self.entry.bytes.now self.entry.n) self.entry.n key.now result }
    {
        let mut left: usize = 0;
        let mut right = self.n;
        let mut left_shared: usize = 0;
        let mut right_shared: usize = 0;
        while left < right {
            let mid = left + (right - left - 1) / 2;
            if self.key_outside(mid) {
                return Err(Refusal::Unfit);
            }
            let at = self.key(mid);
            let skip = left_shared.min(right_shared);
            let shared = keys::common_prefix_len_by_runs(at, key, skip);
            if shared >= key.len() {
                if shared >= at.len() {
                    return Ok(mid);
                }
                right = mid;
                right_shared = shared;
            } else if keys::lt_behind(at, key, shared) {
                left = mid + 1;
                left_shared = shared;
            } else {
                right = mid;
                right_shared = shared;
            }
        }
        if left == self.n {
            return Err(Refusal::KeyAbove);
        }
        Ok(left)
    }
}
