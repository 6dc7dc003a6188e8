// The 64-bit FNV-1a hash.

const OFFSET: u64 = 14695981039346656037;

const PRIME: u64 = 1099511628211;

pub fn fnv1a(bytes: &[u8]) -> u64 {
    bytes.iter().fold(OFFSET, |h, byte| (h ^ u64::from(*byte)).wrapping_mul(PRIME))
}
