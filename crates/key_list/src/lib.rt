// A lent list of keys: pairs of offset and length over one area of bytes.
#![tactic(auto)]

ghost use Rattle.std.specs.Prelude.{◌≡◌, ◌+◌, ◌*◌, ◌/◌, ◌≤◌, ◌<◌, cond, IfOk, length};
ghost use Rattle.layout.specs.Layout.{max_batch_keys};
ghost use Rattle.layout.specs.Refusals.{no_of};
ghost use Rattle.key_list.specs.KeyList.{key_list_count, key_list_offset, key_list_len, key_list_key};
ghost use Rattle.key_list.specs.KeyList.{key_pairs_bad, key_list_bad, KeyListOk};

use layout::MAX_BATCH_KEYS;
use layout::refusals::Refusal;

// A list of at most MAX_BATCH_KEYS keys, each of which lies in the bytes. Both are lent, as C hands them: the library has no heap.
#[derive(Clone, Copy, Debug)]
pub struct KeyList<'a> {
    pub pairs: &'a [u64],
    pub keys: &'a [u8],
    pub ghost ok: { KeyListOk max_batch_keys pairs.now (length keys.now) },
}

// Whether one of the pairs is bad: its offset is below the one before it, or its key ends beyond `room` bytes.
fn pairs_bad(pairs: &[u64], room: u64) -> bool
    ensures { result ≡ key_pairs_bad pairs.now room (key_list_count pairs.now) }
{
    let rows = pairs.as_chunks::<2>().0;
    rows.iter()
        .try_fold(0, |before: u64, &[offset, len]: &[u64; 2]| {
            (before <= offset && !layout::ends_beyond(offset, len, room)).then_some(offset)
        })
        .is_none()
}

// Row 26 for a list of at most `limit` keys over `room` bytes.
pub fn key_list_bad(pairs: &[u64], room: usize, limit: usize) -> bool
    ensures { result ≡ key_list_bad limit pairs.now room }
{
    pairs.len() % 2 == 1 || pairs.len() / 2 > limit || pairs_bad(pairs, room as u64)
}

// Key i of pairs of any number, where its own pair lies in the bytes.
pub fn nth_key<'a>(pairs: &[u64], keys: &'a [u8], i: usize) -> &'a [u8]
    requires { (2 * i + 1 < length pairs.now) × (key_list_offset pairs.now i + key_list_len pairs.now i ≤ length keys.now) }
    ensures { result.now ≡ key_list_key pairs.now keys.now i }
{
    let from = pairs[2 * i] as usize;
    let len = pairs[2 * i + 1] as usize;
    &keys[from..from + len]
}

impl<'a> KeyList<'a> {
    // The list of the pairs over the bytes, refused by row 26.
    pub fn new(pairs: &'a [u64], keys: &'a [u8]) -> Result<KeyList<'a>, Refusal>
        ensures number { no_of result ≡ cond (key_list_bad max_batch_keys pairs.now (length keys.now)) 26 0 }
        ensures list { IfOk result (λ list. (list.pairs.now ≡ pairs.now) × (list.keys.now ≡ keys.now)) }
    {
        if key_list_bad(pairs, keys.len(), MAX_BATCH_KEYS) {
            return Err(Refusal::KeyListBad);
        }
        Ok(KeyList { pairs, keys })
    }

    // How many keys there are.
    pub fn len(&self) -> usize
        ensures { result ≡ key_list_count self.now.pairs.now }
    {
        self.pairs.len() / 2
    }

    // Key i.
    pub fn nth(&self, i: usize) -> &'a [u8]
        requires { i < key_list_count self.now.pairs.now }
        ensures { result.now ≡ key_list_key self.now.pairs.now self.now.keys.now i }
    {
        nth_key(self.pairs, self.keys, i)
    }
}
