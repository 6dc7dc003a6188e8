// Searches side by side: they take turns, so that what one waits for in memory doesn't hold up the others, and no turn branches on
// how a comparison went.
ghost use Rattle.std.specs.Prelude.{◌≡◌, true, false, cond, ℕ, ◌+◌, ◌-◌, ◌*◌, ◌/◌, ◌≤◌, ◌<◌, min, eqb, ltb, length, get_or};
ghost use Rattle.layout.specs.Layout.{max_blocks, max_batch_keys};
ghost use Rattle.keys.specs.Order.{less, common_prefix_len};
ghost use Rattle.directory.specs.Read.{key_outside, Sorted};
ghost use Rattle.layout.specs.Refusals.{no_of};
ghost use Rattle.batch_search.specs.Entries.{no_id, ended, EntriesFound};
ghost use Rattle.batch_search.specs.Lanes.{Keeps, LanesOk, fresh};

use crate::NO_ID;
use directory_read::Directory;
use key_list::KeyList;
use layout::MAX_BATCH_KEYS;
use layout::refusals::Refusal;

// A search: its left bound, and how many bytes the keys around its bounds share with its key.
#[derive(Clone, Copy, Default)]
struct Lane {
    left: usize,
    low: usize,
    high: usize,
}

// The byte at a place of a key and one more; 0 after its last byte.
fn byte_from_1(key: &[u8], place: usize) -> usize
    ensures { (result ≡ cond (ltb place (length key.now)) (get_or key.now place 0 + 1) 0) × (result ≤ 256) }
{
    key.get(place).map_or(0, |byte| usize::from(*byte) + 1)
}

// 1 where `at` isn't below `key`, and 0 where it is, if they share `shared` bytes. By numbers alone: a test of what the bytes say would
// go wrong every other time.
fn not_below(at: &[u8], key: &[u8], shared: usize) -> usize
    ensures { (result ≤ 1) × (shared ≡ common_prefix_len at.now key.now
        → result ≡ cond (less at.now key.now) 0 1) }
{
    (byte_from_1(at, shared) + 512 - byte_from_1(key, shared)) / 512
}

// The first of two numbers for 0, the second for 1, without a branch: by one mask, since of a mask and its complement a compiler
// makes a choice, and of three choices a turn a branch.
fn pick(which: usize, first: usize, second: usize) -> usize
    requires { which ≤ 1 }
    ensures { result ≡ cond (eqb which 0) first second }
{
    let all = which * usize::MAX;
    first ^ ((first ^ second) & all)
}

// How many bytes a key of the directory and a search's own have in common, if the first `from` are. The first word mostly decides,
// so that a turn has one test, and that one is easy to foresee.
fn shared_len(at: &[u8], key: &[u8], from: usize) -> usize
    ensures { from ≤ common_prefix_len at.now key.now
        → result ≡ common_prefix_len at.now key.now }
{
    keys::common_prefix_near(at, key, from).unwrap_or_else(|least| keys::common_prefix_len_by_runs(
        at, key, least,
    ))
}

impl Lane {
    // One turn of a search over `len` keys, which leaves it len / 2.
    fn turn(self, directory: Directory, key: &[u8], len: usize) -> Lane
        requires { (1 ≤ len) × (key_outside directory.bytes.now directory.n (self.left + (len - len / 2) - 1) ≡ false)
            × Keeps directory.bytes.now directory.n key.now len self }
        ensures { Keeps directory.entry.bytes.now directory.entry.n key.now (len / 2) result }
    {
        let half = len - len / 2;
        let at = directory.key(self.left + half - 1);
        let skip = self.low.min(self.high);
        let shared = shared_len(at, key, skip);
        let right = not_below(at, key, shared);
        Lane {
            left: self.left + pick(right, half, 0),
            low: pick(right, shared, self.low),
            high: pick(right, self.high, shared),
        }
    }

    // The entry of a search at its end.
    fn entry(self, n: usize) -> u64
        ensures { result ≡ cond (eqb self.left n) no_id self.left }
    {
        if self.left == n {
            NO_ID
        } else {
            self.left as u64
        }
    }
}

// A turn of each search; refused where one meets a key outside the directory. Directory and list come apart here and below, as the
// public function takes them: a struct of both would be made to be taken apart at once. Not inlined, so that its loop has the registers.
// By place: a list gives its keys by number.
#[inline(never)]
fn round(
    directory: Directory,
    list: &KeyList,
    len: usize,
    lanes: &mut [Lane; MAX_BATCH_KEYS],
) -> Result<(), Refusal>
    requires { (1 ≤ len)
        × LanesOk directory.bytes.now directory.n list.now.pairs.now list.now.keys.now 0 len lanes.old }
    ensures kept { ended result ≡ true
        → LanesOk directory.entry.bytes.now directory.entry.n list.now.pairs.now list.now.keys.now 0 (len / 2) lanes.new }
    ensures ends { Sorted directory.entry.bytes.now directory.entry.n → ended result ≡ true }
    ensures number { no_of result ≡ cond (ended result) 0 20 }
{
    let half = len - len / 2;
    for i in 0..list.len() {
        let lane = lanes[i];
        if directory.key_outside(lane.left + half - 1) {
            return Err(Refusal::Unfit);
        }
        lanes[i] = lane.turn(directory, list.nth(i), len);
    }
    Ok(())
}

// The entries where every search is at its end. By place: over the two lists zipped, the check didn't find which entry is whose.
fn entries(lanes: &[Lane], n: usize, found: &mut [u64; MAX_BATCH_KEYS])
    requires { length lanes.now ≤ max_batch_keys }
    ensures { (length found.new ≡ max_batch_keys) × ((i : ℕ) → i < length lanes.now
        → get_or found.new i 0 ≡ cond (eqb (get_or lanes.now i fresh).left n) no_id (get_or lanes.now i fresh).left) }
{
    for (i, lane) in lanes.iter().enumerate() {
        found[i] = lane.entry(n);
    }
}

// All searches, a turn each in every round. There are as many lanes as a list has keys at most: the library has no heap.
pub fn side_by_side(
    directory: Directory,
    list: &KeyList,
    found: &mut [u64; MAX_BATCH_KEYS],
) -> Result<(), Refusal>
    ensures entries { EntriesFound directory.entry.bytes.now directory.entry.n list.now.pairs.now list.now.keys.now
        found.new (ended result) }
    ensures number { no_of result ≡ cond (ended result) 0 20 }
{
    let mut lanes = [Lane::default(); MAX_BATCH_KEYS];
    let mut len = directory.n;
    // Halved from round to round: nothing is counted that a `for` could go over.
    while len > 0 {
        round(directory, list, len, &mut lanes)?;
        len /= 2;
    }
    entries(&lanes[..list.len()], directory.n, found);
    Ok(())
}
