// The file by the rule, of a version: n keys, key i the 3 bytes of i, highest first; groups that share their fields, with slopes and
// widths of 1; address bytes FF, as many as a full group needs. So block i is i..i + 1 from ordinal i on.
ghost use Rattle.std.specs.Prelude.{◌≡◌, ◌+◌, ◌≤◌, IfOk, take, vec_len};

use layout::versions;
use std::alloc::{AllocError, Global};

const MOST: u64 = 65537;

const RECORD: u32 = 36;

// The record of a group whose block `first` is its first, with so many more.
fn put_record(out: &mut Vec<u8>, first: u32, more: u16) -> Result<(), AllocError>
    ensures { IfOk result (λ _. (vec_len out.new ≡ vec_len out.old + 36)
        × (take (vec_len out.old) out.new.items ≡ out.old.items)) }
{
    out.extend_from_slice(&0u64.to_le_bytes())?;
    out.extend_from_slice(&u64::from(first).to_le_bytes())?;
    out.extend_from_slice(&u64::from(first).to_le_bytes())?;
    out.extend_from_slice(&1u32.to_le_bytes())?;
    out.extend_from_slice(&1u32.to_le_bytes())?;
    out.extend_from_slice(&[1, 1])?;
    out.extend_from_slice(&more.to_le_bytes())
}

// Appends the store of n blocks in groups of `group`.
fn put_store(out: &mut Vec<u8>, n: u32, group: u32) -> Result<(), AllocError>
    requires { (n ≤ 65537) × (128 ≤ group) × (group ≤ 256) }
{
    let groups = n.div_ceil(group);
    out.extend_from_slice(&u64::from(RECORD * groups).to_le_bytes())?;
    for g in 0..groups {
        let first = group * g;
        let more = (n - first).min(group) - 1;
        put_record(out, first, more as u16)?;
    }
    // Two bits a block.
    out.resize(out.len() + group as usize / 4, 0xff)
}

// How long the file of n blocks is: three numbers, a pair and a key each, the groups' records, and the address bytes.
fn file_len(n: u32, group: u32) -> usize
    requires { (n ≤ 65537) × (128 ≤ group) × (group ≤ 256) }
{
    (20 + 11 * n + RECORD * n.div_ceil(group) + group / 4) as usize
}

// Makes the file of n blocks in the place of `out`'s, in one room; an empty one where they are too many, which opening refuses by row 10.
pub fn put_file(out: &mut Vec<u8>, version: u64, n: u64) -> Result<(), AllocError> {
    out.clear();
    if n > MOST {
        return Ok(());
    }
    let n = n as u32;
    let group = versions::group_len(version) as u32;
    out.reserve_exact(file_len(n, group))?;
    out.extend_from_slice(&n.to_le_bytes())?;
    // Loops: each turn puts several bytes, so that a chain would be a flat_map of chains.
    for i in 0..n {
        out.extend_from_slice(&(3 * i).to_le_bytes())?;
        out.extend_from_slice(&3u32.to_le_bytes())?;
    }
    for i in 0..n {
        out.extend_from_slice(&i.to_be_bytes()[1..])?;
    }
    let directory_len = out.len() as u64;
    put_store(out, n, group)?;
    out.extend_from_slice(&directory_len.to_le_bytes())
}
