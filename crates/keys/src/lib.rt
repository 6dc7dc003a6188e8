// Keys: the order of byte strings, the common prefix (src/lib.rs) and the shortened separator (src/index/mod.rs). Two keys come as two
// slices, as they do in std's comparisons.
#![tactic(auto)]

ghost use Rattle.std.specs.Prelude.{◌≡◌, ◌≢◌, ℕ, ◌+◌, ◌≤◌, ◌<◌, min, List, MatchOption, MatchResult, length, take, drop, get_or, ltb};
ghost use Rattle.std.proofs.lemmas.List.Edits.{sets};
ghost use Rattle.keys.specs.Order.{less, common_prefix_len};
ghost use Rattle.keys.specs.Shorten.{shorten};

// How many bytes the keys have in common at the front, byte by byte. A loop: std's position over the two zipped speaks of runs of an
// iterator of both, from which the check didn't find the law of the prefix.
fn common_bytes(left: &[u8], right: &[u8]) -> usize
    ensures { result ≡ common_prefix_len left.now right.now }
{
    let short = left.len().min(right.len());
    for i in 0..short {
        if left[i] != right[i] {
            return i;
        }
    }
    short
}

// How many of the eight bytes from `at` on the keys have in common: a common byte gives eight trailing zeros.
fn common_of_word(left: &[u8], right: &[u8], at: usize) -> usize
    requires { (at + 8 ≤ length left.now) × (at + 8 ≤ length right.now) }
    ensures { result ≡ min 8 (common_prefix_len (drop at left.now) (drop at right.now)) }
{
    let differing = serialize::deserialize_u64(left, at) ^ serialize::deserialize_u64(right, at);
    u64::trailing_zeros(differing) as usize / 8
}

// The place of the first word from `from` on that differs, in steps of eight bytes; `last` where none before it does.
// Nothing is said where not all of the first `from` bytes are in common. The place is counted by hand: a `for` over so many words
// divides first, which takes a seventh more instructions at opening, and std's step_by calls `next` for each place between.
fn first_other_word(left: &[u8], right: &[u8], from: usize, last: usize) -> usize
    requires { last + 8 ≡ min (length left.now) (length right.now) }
    ensures upper_bound { result ≤ last }
    ensures upper_bound_2 { from ≤ common_prefix_len left.now right.now
        → result ≤ common_prefix_len left.now right.now }
    ensures right_bound { from ≤ common_prefix_len left.now right.now
        → common_prefix_len left.now right.now ≤ result + 8 }
{
    let mut at = from;
    while at < last {
        if serialize::deserialize_u64(left, at) != serialize::deserialize_u64(right, at) {
            return at;
        }
        at += 8;
    }
    last
}

// How many bytes the keys have in common at the front, if the first `from` are. The last word may overlap the one before it.
// The premise stays a premise here and below: a search over keys that don't rise counts from a place that isn't in common.
fn common_prefix_len_from(left: &[u8], right: &[u8], from: usize) -> usize
    ensures { from ≤ common_prefix_len left.now right.now
        → result ≡ common_prefix_len left.now right.now }
{
    let short = left.len().min(right.len());
    if short < 8 {
        return common_bytes(left, right);
    }
    let at = first_other_word(left, right, from, short - 8);
    at + common_of_word(left, right, at)
}

// How many bytes the keys have in common at the front.
pub fn common_prefix_len(left: &[u8], right: &[u8]) -> usize
    ensures { result ≡ common_prefix_len left.now right.now }
{
    common_prefix_len_from(left, right, 0)
}

// Whether one of the 64 bytes from `at` on differs. It looks at all of them, so that the loop takes many at once: std's != of the two
// slices takes 1.4 to 1.7 of the time for keys of 72 bytes and more.
fn differs(left: &[u8], right: &[u8], at: usize) -> bool
    requires { (at + 64 ≤ length left.now) × (at + 64 ≤ length right.now) }
    ensures { result ≡ ltb (common_prefix_len (drop at left.now) (drop at right.now)) 64 }
{
    let mut found = false;
    for i in 0..64 {
        found |= left[at + i] != right[at + i];
    }
    found
}

// The place of the first 64 bytes from `from` on, in steps of 64, that aren't all in common; the last 64 may overlap those before them.
// Where all are, the shorter key's length. Counted as the words are; the two aren't one function, since step and test differ, and this
// one tests `last`, too.
fn first_other_run(left: &[u8], right: &[u8], from: usize, last: usize) -> usize
    requires { last + 64 ≡ min (length left.now) (length right.now) }
    ensures { from ≤ common_prefix_len left.now right.now
        → result ≤ common_prefix_len left.now right.now }
{
    let mut at = from;
    while at < last {
        if differs(left, right, at) {
            return at;
        }
        at += 64;
    }
    if differs(left, right, last) {
        return last;
    }
    64 + last
}

// The same as `common_prefix_len_from`, by runs first: faster for long keys, and larger.
pub fn common_prefix_len_by_runs(left: &[u8], right: &[u8], from: usize) -> usize
    ensures { from ≤ common_prefix_len left.now right.now
        → result ≡ common_prefix_len left.now right.now }
{
    let short = left.len().min(right.len());
    let behind = if short < 64 {
        from
    } else {
        first_other_run(left, right, from, short - 64)
    };
    common_prefix_len_from(left, right, behind)
}

// What the first word from `from` on says of the common prefix, if the first `from` bytes are in common: its length where it ends in
// the word, else how many bytes it has at least. So an Err is no refusal, but a place to go on from, as that of std's binary_search is.
// A search that knows how many are in common seldom has to look further; for keys of one word it never has to.
pub fn common_prefix_near(left: &[u8], right: &[u8], from: usize) -> Result<usize, usize>
    ensures { from ≤ common_prefix_len left.now right.now
        → MatchResult result (λ len. len ≡ common_prefix_len left.now right.now)
        (λ least. least ≤ common_prefix_len left.now right.now) }
{
    let short = left.len().min(right.len());
    if short < 8 {
        return Ok(common_bytes(left, right));
    }
    let at = from.min(short - 8);
    let near = common_of_word(left, right, at);
    if at + 8 == short || near < 8 {
        Ok(at + near)
    } else {
        Err(at + near)
    }
}

// The common prefix, as the front of the first key.
pub fn common_prefix<'a>(left: &'a [u8], right: &[u8]) -> &'a [u8]
    ensures { result.now ≡ take (common_prefix_len left.now right.now) left.now }
{
    let len = common_prefix_len(left, right);
    &left[..len]
}

// Whether left is below right, if `len` is their common prefix's length. By hand: by the order of two Options,
// `left.get(len) < right.get(len)`, a finish takes 1.3 instructions more a block.
pub fn lt_behind(left: &[u8], right: &[u8], len: usize) -> bool
    ensures { len ≡ common_prefix_len left.now right.now
        → result ≡ less left.now right.now }
{
    len < right.len() && left.get(len).is_none_or(|byte| *byte < right[len])
}

// Whether left is below right. By words: std's < of slices goes byte by byte, and its cmp takes half as long again for keys of eight
// bytes.
pub fn lt(left: &[u8], right: &[u8]) -> bool
    ensures { result ≡ less left.now right.now }
{
    let len = common_prefix_len(left, right);
    lt_behind(left, right, len)
}

// The place of the first byte that isn't FF.
fn first_below_ff(bytes: &[u8]) -> Option<usize>
    ensures { MatchOption result ((k : ℕ) → k < length bytes.now → get_or bytes.now k 0 ≡ 255)
        (λ place. (place < length bytes.now) × ((k : ℕ) → k < place → get_or bytes.now k 0 ≡ 255)
        × (get_or bytes.now place 0 ≢ 255)) }
{
    bytes.iter().position(|byte| *byte != 255)
}

// `find_shorter_str_in_between` for every right with which the key has `common_len` bytes in common: the search needs no more of it.
pub fn shorter_str_behind(key: &mut [u8], common_len: usize) -> usize
    requires { common_len ≤ length key.old }
    ensures { (right : List ℕ) → common_len ≡ common_prefix_len key.old right
        → (result ≡ length (shorten key.old right)) × (key.new ≡ sets key.old 0 (shorten key.old right)) }
{
    let len = key.len();
    if common_len == len {
        return len;
    }
    let behind = common_len + 1;
    let Some(passed) = first_below_ff(&key[behind..]) else {
        return len;
    };
    let pos = behind + passed;
    key[pos] += 1;
    pos + 1
}

// Shortens a key, in place, to one that isn't below it and still below `right` (if the key is). Returns the new length. At most one byte
// changes. The builder, which knows the common prefix, calls `shorter_str_behind`.
pub fn find_shorter_str_in_between(left: &mut [u8], right: &[u8]) -> usize
    ensures value { result ≡ length (shorten left.old right.now) }
    ensures left_after { left.new ≡ sets left.old 0 (shorten left.old right.now) }
{
    let common_len = common_prefix_len(left, right);
    shorter_str_behind(left, common_len)
}
