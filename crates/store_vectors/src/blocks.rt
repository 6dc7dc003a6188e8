// Blocks in an area of numbers, three a block.
ghost use Rattle.std.specs.Prelude.{◌≡◌, true, ℕ, suc, ◌+◌, ◌*◌, ◌≤◌, ◌<◌, length, IfSome};
ghost use Rattle.layout.specs.Versions.{group_len_of};
ghost use Rattle.group.specs.Blocks.{block_at};
ghost use Rattle.group.specs.Legal.{NumbersOk, Follows};
ghost use Rattle.store.specs.Facts.{StoreArea};

use group::area::block_at;
use layout::{MAX_BLOCKS, versions};
use std::alloc::{AllocError, Global};
use store_write::AreaStore;
use vector_parts::draws::Draws;

pub const STRIDE: usize = 3;

// Whether block i's numbers keep their limits.
fn is_legal(area: &[u64], i: usize) -> bool
    requires { 3 * i + 3 ≤ length area.now }
    ensures { result ≡ true → NumbersOk (block_at area.now 3 i) }
{
    !block_at(area, STRIDE * i).numbers_bad()
}

// Whether the block behind block i follows it.
fn is_followed(area: &[u64], i: usize) -> bool
    requires { 3 * i + 6 ≤ length area.now }
    ensures { result ≡ true → Follows (block_at area.now 3 i) (block_at area.now 3 (suc i)) }
{
    let before = block_at(area, STRIDE * i);
    let block = block_at(area, STRIDE * (i + 1));
    !block.join_bad(before) && !block.ordinal_bad(before)
}

// Whether the numbers of n blocks keep their limits. Area and count, here and below, as the clauses of AreaStore have its blocks.
fn have_legal_numbers(area: &[u64], n: usize) -> bool
    requires { 3 * n ≤ length area.now }
    ensures { result ≡ true → (i : ℕ) → i < n → NumbersOk (block_at area.now 3 i) }
{
    (0..n).all(|i| is_legal(area, i))
}

// Whether each of n blocks follows the one before it.
fn follow(area: &[u64], n: usize) -> bool
    requires { 3 * n ≤ length area.now }
    ensures { result ≡ true → (i : ℕ) → suc i < n
        → Follows (block_at area.now 3 i) (block_at area.now 3 (suc i)) }
{
    (0..n.saturating_sub(1)).all(|i| is_followed(area, i))
}

// The blocks in an area of just their numbers, in groups as an index of this version has them, if they are legal.
pub fn legal(version: u64, area: &[u64]) -> Option<AreaStore<'_>>
    ensures { IfSome result (λ blocks. StoreArea area.now 3 blocks.n × (length area.now ≡ 3 * blocks.n)
        × (blocks.area.now ≡ area.now) × (blocks.stride ≡ 3) × (blocks.group_len ≡ group_len_of version)) }
{
    let n = area.len() / STRIDE;
    if n > MAX_BLOCKS || area.len() % STRIDE != 0 {
        return None;
    }
    if !have_legal_numbers(area, n) || !follow(area, n) {
        return None;
    }
    Some(AreaStore {
        area,
        stride: STRIDE,
        n,
        group_len: versions::group_len(version),
    })
}

// The size of a block for a number that was drawn.
fn size(drawn: u64, k: u64) -> u64
    requires { k < 64 }
{
    if drawn % 8 == 0 { 0 } else { drawn << k }
}

// The area of `count` blocks by the list's rule.
pub fn generate(alloc: Global, seed: u64, count: usize) -> Result<Vec<u64>, AllocError> {
    let k = seed % 23;
    let j = seed / 23 % 23;
    let mut draws = Draws::new(seed);
    let mut area = Vec::new(alloc);
    let mut start = draws.draw() << k;
    let mut ordinal = draws.draw();
    // A `for`: a try_for_each's closure would change four values around it.
    for _ in 0..count {
        let end = start.saturating_add(size(draws.draw(), k));
        area.extend_from_slice(&[start, end, ordinal])?;
        start = end;
        ordinal = ordinal.saturating_add(1).saturating_add(draws.draw() << j);
    }
    Ok(area)
}
