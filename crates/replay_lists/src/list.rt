// A list put together from the parts of a line.
ghost use Rattle.std.specs.Prelude.{◌<◌, IfOk, IfSome, vec_len};

use case_text::Case;
use std::alloc::{AllocError, Global};

// One byte more than the longest list.
const LIST_LEN: usize = 32768;

// Each part as often as its count says; none where that is too long.
pub fn join(alloc: Global, counts: &[u64], case: Case<'_>) -> Result<Option<Vec<u8>>, AllocError>
    ensures { IfOk result (λ joined. IfSome joined (λ list. vec_len list < 32768)) }
{
    let mut list = Vec::new(alloc);
    // Loops, which stop once the list is too long: a count may be any number.
    for (k, count) in counts.iter().enumerate() {
        let part = case.string(k);
        for _ in 0..*count {
            list.extend_from_slice(part)?;
            if list.len() >= LIST_LEN {
                return Ok(None);
            }
        }
    }
    Ok(Some(list))
}
