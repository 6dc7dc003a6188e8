// Files by name.
ghost use Rattle.std.specs.Prelude.{◌≡◌, ◌<◌, IfOk, IfSome, vec_len};
ghost use Rattle.file_vectors.specs.Names.{version_of};

use layout::versions::{SSTABLE_INDEX_V3, SSTABLE_INDEX_V4};
use std::alloc::AllocError;
use std::fs;
use std::rt::Files;
use vectors::driver;

// A file that is replayed is shorter.
pub const FILE_LEN: usize = 65536;

// No path of a file beside another is longer.
const PATH_LEN: usize = 64;

// The version that a file of this name is read with.
pub fn version(name: &str) -> u64
    ensures { result ≡ version_of name.now }
{
    if name.as_bytes().starts_with(b"v4-") {
        SSTABLE_INDEX_V4
    } else {
        SSTABLE_INDEX_V3
    }
}

// The bytes of the file of this name, if it can be read and is shorter than the room.
pub fn read(
    rt: &(impl Files + AllocGlobal),
    name: &str,
    room: usize,
) -> Result<Option<Vec<u8>>, AllocError>
    ensures { IfOk result (λ read. IfSome read (λ bytes. vec_len bytes < room)) }
{
    let mut bytes = vec![in rt.alloc(); 0u8; room]?;
    let Ok(mut file) = fs::open(rt, name) else {
        return Ok(None);
    };
    match driver::fill(&mut file, &mut bytes) {
        Ok(len) if len < room => {
            bytes.truncate(len);
            Ok(Some(bytes))
        }
        _ => Ok(None),
    }
}

// As `read`, of the file whose name is what stands before the first dot of this one, and an ending.
pub fn read_beside(
    rt: &(impl Files + AllocGlobal),
    name: &str,
    ending: &str,
    room: usize,
) -> Result<Option<Vec<u8>>, AllocError>
    ensures { IfOk result (λ read. IfSome read (λ bytes. vec_len bytes < room)) }
{
    let stem = name.split_once('.').map_or(name, |(stem, _)| stem);
    let path = format!(in rt.alloc(); "{stem}.{ending}")?;
    if path.len() > PATH_LEN {
        return Ok(None);
    }
    read(rt, &path, room)
}
