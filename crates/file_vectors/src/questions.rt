// Questions to an index file, one a line, with their answers.
use crate::files::FILE_LEN;
use crate::{ROW_OF_QUESTIONS, files};
use case_text::{Case, Line, Room};
use index::SSTableIndexV3;
use layout::refusals::Refusal;
use std::alloc::{AllocError, Global};
use std::io;
use std::rt::Files;
use vector_parts::tally::Tallies;
use vector_parts::told::is_told;
use vectors::driver::Letter;

const ROW: Option<usize> = Some(ROW_OF_QUESTIONS);

// A question holds no more than so many numbers and byte strings, and no longer key.
const MOST_NUMBERS: usize = 8;

const MOST_STRINGS: usize = 1;

const LONGEST_KEY: usize = 2048;

// What a line asks.
#[derive(Clone, Copy)]
enum Kind {
    ById,
    ByTerms,
    ByVersion,
    ByOrdinal,
    ByKey,
    IsCanonical,
}

// The letter of each kind, with the row of its tally and how many byte strings its lines have.
const LETTERS: [Letter<Kind>; 6] = [
    Letter {
        letter: b'i',
        kind: Kind::ById,
        row: ROW,
        strings: 0,
    },
    Letter {
        letter: b't',
        kind: Kind::ByTerms,
        row: ROW,
        strings: 0,
    },
    Letter {
        letter: b'v',
        kind: Kind::ByVersion,
        row: ROW,
        strings: 0,
    },
    Letter {
        letter: b'o',
        kind: Kind::ByOrdinal,
        row: ROW,
        strings: 0,
    },
    Letter {
        letter: b'k',
        kind: Kind::ByKey,
        row: ROW,
        strings: 1,
    },
    Letter {
        letter: b'c',
        kind: Kind::IsCanonical,
        row: ROW,
        strings: 0,
    },
];

// The record of the file with so many terms, as an opening with them answers it.
fn with_terms(opened: SSTableIndexV3, terms: u64) -> Result<SSTableIndexV3, Refusal> {
    if terms < opened.terms {
        return Err(Refusal::TermsBad);
    }
    Ok(SSTableIndexV3 { terms, ..opened })
}

// Whether the file opens with so many terms as the line says, and to the same record but for their number.
fn opens_again(opened: SSTableIndexV3, data: &[u8], terms: u64, due: &[u64]) -> bool {
    let answer = index_load::load(opened.version, terms, data);
    answer == with_terms(opened, terms) && is_told(due, answer.map(|_| []))
}

// The same with a version, and the least number of terms. Where it doesn't open, the check says so too.
fn opens_as(opened: SSTableIndexV3, data: &[u8], version: u64, due: &[u64]) -> bool {
    let answer = index_load::load_least(version, data);
    let same = match answer {
        Ok(again) => again == SSTableIndexV3 { version, ..opened },
        Err(refusal) => canonical::check_canonical(version, data) == Err(refusal),
    };
    same && is_told(due, answer.map(|_| []))
}

// Whether the answer to a line's question is the line's own.
fn is_answered(kind: Kind, case: Case<'_>, opened: SSTableIndexV3, data: &[u8]) -> bool {
    match (kind, case.numbers) {
        // ID NO START END ORDINAL
        (Kind::ById, [id, due @ ..]) => {
            let answer = index_lookup::get_block(opened, data, *id);
            is_told(due, answer.map(|addr| <[u64; 3]>::from(addr)))
        }
        // TERMS NO
        (Kind::ByTerms, [terms, due @ ..]) => opens_again(opened, data, *terms, due),
        // VERSION NO
        (Kind::ByVersion, [version, due @ ..]) => opens_as(opened, data, *version, due),
        // TERMS ORDINAL NO ID
        (Kind::ByOrdinal, [terms, ord, due @ ..]) => {
            let answer = with_terms(opened, *terms).and_then(|opened| index_lookup::locate_with_ord(
                opened, data, *ord,
            ));
            is_told(due, answer.map(|found| [found.block_id as u64]))
        }
        // NO ID
        (Kind::ByKey, due) => {
            let answer = index_lookup::locate_with_key(opened, data, case.string(0));
            is_told(due, answer.map(|id| [id as u64]))
        }
        // NO
        (Kind::IsCanonical, due) => {
            is_told(
                due,
                canonical::check_canonical(opened.version, data).map(|()| []),
            )
        }
        _ => false,
    }
}

// The letter above that a line begins with.
fn letter_of(line: &[u8]) -> Option<Letter<Kind>> {
    LETTERS
        .iter()
        .find(|letter| line.first() == Some(&letter.letter))
        .copied()
}

// Whether a line asks something, and the answer is its own.
fn is_right(line: &[u8], room: &mut Room, opened: SSTableIndexV3, data: &[u8]) -> bool {
    let Some(letter) = letter_of(line) else {
        return false;
    };
    match room.parse(line) {
        Line::Case(case) => {
            letter.strings == case.spans.len() && is_answered(letter.kind, case, opened, data)
        }
        _ => false,
    }
}

// Counts a case for each line, a comment too, which `driver::compare` passes over.
fn count_lines(
    alloc: Global,
    text: &[u8],
    opened: SSTableIndexV3,
    data: &[u8],
    tallies: &mut Tallies,
) -> Result<(), AllocError> {
    let mut room = Room::new(alloc, MOST_NUMBERS, MOST_STRINGS, LONGEST_KEY)?;
    for line in text.split_inclusive(|byte| *byte == b'\n') {
        tallies.count(ROW, is_right(line, &mut room, opened, data));
    }
    Ok(())
}

// Counts a case for each line of NAME.questions, asked of NAME.index. No line at all differs.
pub fn count(rt: &(impl Files + AllocGlobal), name: &str, tallies: &mut Tallies) -> io::Result<()> {
    let text = files::read(rt, name, FILE_LEN)?;
    let file = files::read_beside(rt, name, "index", FILE_LEN)?;
    let (Some(text), Some(file)) = (text, file) else {
        tallies.count(ROW, false);
        return Ok(());
    };
    match index_load::load_least(files::version(name), &file) {
        Ok(opened) if !text.is_empty() => {
            Ok(count_lines(rt.alloc(), &text, opened, &file, tallies)?)
        }
        _ => {
            tallies.count(ROW, false);
            Ok(())
        }
    }
}
