// Replays a list of files and lookups, with answers of the Rust and of a plain model, against the proved opening and
// lookups, and counts the lines whose answers differ.
#![tactic(auto)]

mod batches;
mod exact;
mod free;
mod lookup;
mod opened;
mod rule;

use case_text::Case;
use lookup::Lookup;
use opened::Opened;
use std::alloc::{AllocError, Global};
use std::io;
use vectors::driver;
use vectors::driver::Letter;

// What a line does or asks.
#[derive(Clone, Copy)]
enum Kind {
    OpenFile,
    OpenChanged,
    OpenByRule,
    OpenAgain,
    SetRecord,
    Find(Question),
}

// What a lookup asks. The free ones may have a record that doesn't belong to the file.
#[derive(Clone, Copy)]
enum Question {
    ById,
    ByOrdinal,
    ByKey,
    AddressByKey,
    Separator,
    ByIdFree,
    ByOrdinalFree,
    ByKeyFree,
    AddressByKeyFree,
    SeparatorFree,
    Batch,
    BatchFree,
}

// The letter of each kind, with the row of its tally and how many byte strings its lines have.
const LETTERS: [Letter<Kind>; 17] = [
    Letter {
        letter: b'f',
        kind: Kind::OpenFile,
        row: Some(0),
        strings: 1,
    },
    Letter {
        letter: b'c',
        kind: Kind::OpenChanged,
        row: Some(1),
        strings: 1,
    },
    Letter {
        letter: b'g',
        kind: Kind::OpenByRule,
        row: Some(2),
        strings: 0,
    },
    Letter {
        letter: b't',
        kind: Kind::OpenAgain,
        row: Some(10),
        strings: 0,
    },
    Letter {
        letter: b'i',
        kind: Kind::Find(Question::ById),
        row: Some(3),
        strings: 0,
    },
    Letter {
        letter: b'o',
        kind: Kind::Find(Question::ByOrdinal),
        row: Some(4),
        strings: 0,
    },
    Letter {
        letter: b'k',
        kind: Kind::Find(Question::ByKey),
        row: Some(5),
        strings: 1,
    },
    Letter {
        letter: b'a',
        kind: Kind::Find(Question::AddressByKey),
        row: Some(6),
        strings: 1,
    },
    Letter {
        letter: b'p',
        kind: Kind::Find(Question::Separator),
        row: Some(7),
        strings: 0,
    },
    Letter {
        letter: b'I',
        kind: Kind::Find(Question::ByIdFree),
        row: Some(8),
        strings: 0,
    },
    Letter {
        letter: b'O',
        kind: Kind::Find(Question::ByOrdinalFree),
        row: Some(8),
        strings: 0,
    },
    Letter {
        letter: b'K',
        kind: Kind::Find(Question::ByKeyFree),
        row: Some(8),
        strings: 1,
    },
    Letter {
        letter: b'A',
        kind: Kind::Find(Question::AddressByKeyFree),
        row: Some(8),
        strings: 1,
    },
    Letter {
        letter: b'P',
        kind: Kind::Find(Question::SeparatorFree),
        row: Some(8),
        strings: 0,
    },
    Letter {
        letter: b'b',
        kind: Kind::Find(Question::Batch),
        row: Some(9),
        strings: 1,
    },
    Letter {
        letter: b'B',
        kind: Kind::Find(Question::BatchFree),
        row: Some(8),
        strings: 1,
    },
    Letter {
        letter: b'm',
        kind: Kind::SetRecord,
        row: None,
        strings: 0,
    },
];

const ROWS: [&str; 11] = [
    "files",
    "changed files",
    "large files",
    "ids",
    "ordinals",
    "keys",
    "addresses by key",
    "separators",
    "left free",
    "batches",
    "opened again",
];

// Whether a line's answers are those of the proved functions. `alloc` goes along to where a Vec is made, which asks for it.
fn is_same(
    alloc: Global,
    kind: Kind,
    case: Case<'_>,
    opened: &mut Opened,
) -> Result<bool, AllocError> {
    let given = case.numbers;
    let text = case.string(0);
    match kind {
        Kind::OpenFile => opened.opens_file(given, text),
        Kind::OpenChanged => opened.opens_changed(alloc, given, text),
        Kind::OpenByRule => opened.opens_by_rule(given),
        Kind::OpenAgain => Ok(opened.opens_again(given)),
        Kind::SetRecord => Ok(opened.sets_record(given)),
        Kind::Find(question) => {
            let lookup = Lookup {
                opened,
                key: text,
                given,
            };
            is_found(alloc, question, lookup)
        }
    }
}

// Whether a lookup's answer is the one given, or one that is allowed.
fn is_found(alloc: Global, question: Question, lookup: Lookup<'_>) -> Result<bool, AllocError> {
    match question {
        Question::ById => Ok(lookup.finds_id()),
        Question::ByOrdinal => Ok(lookup.finds_ordinal()),
        Question::ByKey => Ok(lookup.finds_key()),
        Question::AddressByKey => Ok(lookup.finds_address()),
        Question::Separator => Ok(lookup.finds_separator()),
        Question::Batch => lookup.finds_batch(alloc),
        Question::ByIdFree => Ok(lookup.may_find_id()),
        Question::ByOrdinalFree => Ok(lookup.may_find_ordinal()),
        Question::ByKeyFree => Ok(lookup.may_find_key()),
        Question::AddressByKeyFree => Ok(lookup.may_find_address()),
        Question::SeparatorFree => Ok(lookup.may_find_separator()),
        Question::BatchFree => lookup.may_find_batch(alloc),
    }
}

fn main(rt: HostRuntime) -> io::Result<()> {
    let mut opened = Opened::new(rt.alloc());
    driver::replay(
        &rt,
        &LETTERS,
        &ROWS,
        |kind, case| Ok(is_same(rt.alloc(), kind, case, &mut opened)?),
    )
}
