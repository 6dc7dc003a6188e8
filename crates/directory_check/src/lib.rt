// Rows 12 and 13: the rules of a directory.
#![tactic(auto)]

ghost use Rattle.std.specs.Prelude.{◌≡◌, false, ◌+◌, ◌*◌, ◌≤◌, ◌<◌, length};
ghost use Rattle.layout.specs.Layout.{max_blocks, pair_len};
ghost use Rattle.layout.specs.Refusals.{no_of};
ghost use Rattle.directory.specs.Read.{count_of};
ghost use Rattle.directory.specs.Read.{pairs_bad, directory_bad, keys_bad, directory_no};

use directory_read::{Directory, number};
use layout::refusals::Refusal;
use layout::{MAX_BLOCKS, MAX_KEY_LEN, PAIR_LEN};

// Whether one of the first n pairs breaks the offsets' rule, or its key is too long.
#[tactic(auto, unfolding(directory::specs::Read::key_begin, directory::specs::Read::pairs_bad))]
fn pairs_bad(directory: &[u8], n: usize) -> bool
    requires { (n ≤ max_blocks) × (4 + pair_len * n ≤ length directory.now) }
    ensures { result ≡ pairs_bad directory.now n }
{
    (0..n)
        .try_fold(
            0,
            |begin: usize, i: usize|
                requires { 4 + pair_len * i + pair_len ≤ length directory.now }
            {
                let at = 4 + PAIR_LEN * i;
                let len = number(directory, at + 4);
                if number(directory, at) != begin || len > MAX_KEY_LEN {
                    return None;
                }
                Some(begin + len)
            },
        )
        .is_none()
}

// Row 12.
#[tactic(auto, unfolding(directory::specs::Read::directory_bad))]
fn directory_bad(directory: &[u8]) -> bool
    ensures { result ≡ directory_bad directory.now }
{
    let len = directory.len();
    if len < 4 {
        return true;
    }
    let n = number(directory, 0);
    if !(2..=MAX_BLOCKS).contains(&n) {
        return true;
    }
    let keys = 4 + PAIR_LEN * n;
    if len < keys || pairs_bad(directory, n) {
        return true;
    }
    let last = keys - PAIR_LEN;
    len != keys + (number(directory, last) + number(directory, last + 4))
}

// Row 13: whether a key isn't above the one before it. Not inlined, here and in the checks of groups: inside opening, which is one large
// function then, a loop's numbers would wait on the stack.
#[tactic(auto, unfolding(directory::specs::Read::keys_bad))]
#[inline(never)]
fn keys_bad(directory: Directory) -> bool
    requires { directory_bad directory.bytes.now ≡ false × (directory.n ≡ count_of directory.bytes.now) }
    ensures { result ≡ keys_bad directory.entry.bytes.now directory.entry.n directory.entry.n }
{
    (1..directory.n).any(|i| !keys::lt(directory.key(i - 1), directory.key(i)))
}

// Rows 12 and 13.
#[tactic(auto, unfolding(directory::specs::Read::directory_no))]
pub fn directory_no(directory: &[u8]) -> Result<(), Refusal>
    ensures { no_of result ≡ directory_no directory.now }
{
    if directory_bad(directory) {
        return Err(Refusal::DirectoryBad);
    }
    let n = number(directory, 0);
    if keys_bad(Directory {
        bytes: directory,
        n,
    }) {
        return Err(Refusal::KeysUnsorted);
    }
    Ok(())
}
