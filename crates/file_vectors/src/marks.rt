// Automata: the marks of the blocks of worked.index.
use crate::files;
use crate::files::FILE_LEN;
use layout::versions::SSTABLE_INDEX_V3;
use line_text::Refused;
use std::alloc::{AllocError, Global};
use std::rt::Files;

const MOST_MARKS: usize = 8;

// The index of the blocks, and a list of marks, is shorter.
const SMALL_LEN: usize = 4096;

// The marks' digits, no digit where a mark is neither 0 nor 1; and how many are 1.
fn line(alloc: Global, marks: &[u8], count: usize) -> Result<String, AllocError> {
    let mut line: String = marks
        .iter()
        .map(|mark| char::from_digit(u32::from(*mark), 2).unwrap_or('?'))
        .collect(alloc)?;
    writeln!(line, " {count}")?;
    Ok(line)
}

// Whether the text is the marks that the automaton gives the blocks of the file, or its refusal.
fn is_text(alloc: Global, data: &[u8], table: &[u8], expected: &[u8]) -> Result<bool, AllocError> {
    let Ok(opened) = index_load::load_least(SSTABLE_INDEX_V3, data) else {
        return Ok(false);
    };
    if opened.n > MOST_MARKS {
        return Ok(false);
    }
    let mut marks = vec![in alloc; 2u8; opened.n]?;
    let text = match listing::get_block_for_automaton(opened, data, table, &mut marks) {
        Ok(count) => line(alloc, &marks, count)?,
        Err(refusal) => Refused { refusal }.to_string(alloc)?,
    };
    Ok(text.as_bytes() == expected)
}

// Whether NAME.automaton marks the blocks as NAME.expected says.
pub fn is_same(rt: &(impl Files + AllocGlobal), name: &str) -> Result<bool, AllocError> {
    let file = files::read(rt, "worked.index", SMALL_LEN)?;
    let table = files::read(rt, name, FILE_LEN)?;
    let expected = files::read_beside(rt, name, "expected", SMALL_LEN)?;
    let (Some(file), Some(table), Some(expected)) = (file, table, expected) else {
        return Ok(false);
    };
    is_text(rt.alloc(), &file, &table, &expected)
}
