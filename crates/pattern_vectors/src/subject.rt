// What the calls are about: an automaton, an index file and its record, or one that may not belong to it.
use crate::areas;
use crate::areas::holds_over_both;
use crate::tables::Table;
use case_text::Case;
use index::SSTableIndexV3;
use layout::refusals::Refusal;
use std::alloc::{AllocError, Global};
use vector_parts::told::is_told;

// No file of a line is longer.
const LONGEST_FILE: usize = 4096;

#[derive(Drop)]
pub struct Subject {
    table: Vec<u8>,
    file: Vec<u8>,
    record: Option<SSTableIndexV3>,
}

impl Subject {
    pub fn new(alloc: Global) -> Subject {
        Subject {
            table: Vec::new(alloc),
            file: Vec::new(alloc),
            record: None,
        }
    }

    // Another automaton, made as the line says. False where the line is bad.
    pub fn sets_table(
        &mut self,
        alloc: Global,
        how: Table,
        case: Case<'_>,
    ) -> Result<bool, AllocError> {
        how.set(alloc, case, &mut self.table)
    }

    // VERSION N, and the file: its count of blocks, 0 where it is refused. No listing depends on the number of terms.
    pub fn opens(
        &mut self,
        alloc: Global,
        given: &[u64],
        content: &[u8],
    ) -> Result<bool, AllocError> {
        let [version, n] = *given else {
            return Ok(false);
        };
        if content.len() > LONGEST_FILE {
            return Ok(false);
        }
        self.file = content.to_vec(alloc)?;
        self.record = index_load::load_least(version, &self.file).ok();
        Ok(n == self.block_count() as u64)
    }

    // N DIRECTORY LEN RECORDS LEN ADDRESSES LEN TERMS VERSION: this record from here on. This and `block_count` are as in
    // index_vectors: vectors, which both use, doesn't know index.
    pub fn sets_record(&mut self, given: &[u64]) -> bool {
        let Ok(numbers) = <[u64; 9]>::try_from(given) else {
            return false;
        };
        self.record = Some(SSTableIndexV3::from(numbers));
        true
    }

    // How many blocks the record says; 0 where there is none, as the lists have it.
    fn block_count(&self) -> usize {
        self.record.map_or(0, |record| record.n)
    }

    // The listing. A file that was refused has no record, and belongs to none, as row 20 says.
    fn list(&self, marks: &mut [u8]) -> Result<usize, Refusal> {
        let record = self.record.ok_or(Refusal::Unfit)?;
        listing::get_block_for_automaton(record, &self.file, &self.table, marks)
    }

    // HAS NO MARK, and the interval
    pub fn marks(&self, given: &[u64], start: &[u8], end: &[u8]) -> bool {
        let [has @ (0 | 1), due @ ..] = given else {
            return false;
        };
        let start = (*has == 1).then_some(start);
        let answer = pruning_match::can_block_match_automaton(start, end, &self.table);
        is_told(due, answer.map(|mark| [u64::from(mark)]))
    }

    // HAS ROOM NO, the interval, and the example
    pub fn gives_example(
        &self,
        alloc: Global,
        given: &[u64],
        start: &[u8],
        end: &[u8],
        word: &[u8],
    ) -> Result<bool, AllocError> {
        let [has @ (0 | 1), room @ ..=areas::MOST, no] = *given else {
            return Ok(false);
        };
        let start = (has == 1).then_some(start);
        holds_over_both(alloc, room as usize, |area| {
            let answer = example::example(start, end, &self.table, &mut area.bytes);
            is_told(&[no, word.len() as u64], answer.map(|len| [len as u64]))
                && area.front(word.len()) == Some(word)
        })
    }

    // ROOM NO COUNT, and the marks
    pub fn lists(&self, alloc: Global, given: &[u64], marks: &[u8]) -> Result<bool, AllocError> {
        let [room @ ..=areas::MOST, due @ ..] = given else {
            return Ok(false);
        };
        holds_over_both(alloc, *room as usize, |area| {
            is_told(due, self.list(&mut area.bytes).map(|count| [count as u64]))
                && area.front(marks.len()) == Some(marks)
        })
    }

    // ROOM: a listing whose record may not be the file's: marks as many as there are blocks, or one of the rows that are allowed then
    pub fn may_list(&self, alloc: Global, given: &[u64]) -> Result<bool, AllocError> {
        let [room @ ..=areas::MOST] = *given else {
            return Ok(false);
        };
        holds_over_both(alloc, room as usize, |area| {
            match self.list(&mut area.bytes) {
                Ok(count) => area
                    .front(self.block_count())
                    .is_some_and(|marks| are_marks(marks, count)),
                Err(
                    Refusal::Unfit
                    | Refusal::TableBad
                    | Refusal::FlagBad
                    | Refusal::StateBad
                    | Refusal::RoomShort,
                ) => area.front(0).is_some(),
                Err(_) => false,
            }
        })
    }
}

// Whether the bytes are marks of 0 and 1, so many of them 1.
fn are_marks(bytes: &[u8], count: usize) -> bool {
    bytes.iter().all(|mark| *mark <= 1) && bytes.iter().filter(|mark| **mark == 1).count() == count
}
