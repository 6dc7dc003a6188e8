// A run of bytes, copied to the front of another.
#![tactic(auto)]

ghost use Rattle.std.specs.Prelude.{◌≡◌, ◌≤◌, ◌++◌, length, take, drop};

// Copies `from` to the front of `to`. Returns how many bytes that were, so that a writer can count on from there.
pub fn copy(from: &[u8], to: &mut [u8]) -> usize
    requires { length from.now ≤ length to.old }
    ensures count { result ≡ length from.now }
    ensures copied { to.new ≡ take (length from.now) from.now ++ drop (length from.now) to.old }
{
    let len = from.len();
    to[..len].copy_from_slice(from);
    len
}
