// Index files: what `blocks` prints for each.
ghost use Rattle.index.specs.Opening.{Opens};

use crate::files;
use crate::files::FILE_LEN;
use index::SSTableIndexV3;
use layout::refusals::Refusal;
use line_text::Refused;
use std::alloc::{AllocError, Global};
use std::rt::Files;

// The lines of the blocks. Record and bytes come apart, as index_load answers them: a struct of both would be made for this one loop;
// that they belong together is asked for.
fn lines(alloc: Global, opened: SSTableIndexV3, data: &[u8]) -> Result<String, AllocError>
    requires { Opens «data».now opened }
{
    let mut text = String::new(alloc);
    (0..opened.n).try_for_each(|id| {
        let line = block_lines::line(opened, data, id);
        write!(text, "{line}")
    })?;
    Ok(text)
}

// Whether the text is the lines of the blocks, or that of the refusal, which the check of the file gives too.
fn is_text(alloc: Global, version: u64, data: &[u8], expected: &[u8]) -> Result<bool, AllocError> {
    Ok(match index_load::load_least(version, data) {
        Ok(opened) => lines(alloc, opened, data)?.as_bytes() == expected,
        Err(refusal) => {
            canonical::check_canonical(version, data) == Err(refusal)
                && Refused { refusal }.to_string(alloc)?.as_bytes() == expected
        }
    })
}

// Whether opening and the check refuse the bytes with row 30 where no index has the version, whatever else is wrong with them.
fn want_a_version(data: &[u8]) -> bool {
    [0, 2, 5, u64::MAX].iter().all(|version| {
        index_load::load_least(*version, data) == Err(Refusal::VersionBad)
            && canonical::check_canonical(*version, data) == Err(Refusal::VersionBad)
    })
}

// Whether NAME.index opens as NAME.expected says.
pub fn is_same(rt: &(impl Files + AllocGlobal), name: &str) -> Result<bool, AllocError> {
    let Some(file) = files::read(rt, name, FILE_LEN)? else {
        return Ok(false);
    };
    let Some(expected) = files::read_beside(rt, name, "expected", FILE_LEN)? else {
        return Ok(false);
    };
    Ok(want_a_version(&file) && is_text(rt.alloc(), files::version(name), &file, &expected)?)
}
