// Replays a list of automata, intervals of keys and index files, with answers of the Rust and of a plain model, against the
// proved pruning, listing and example, and counts the lines whose answers differ.
#![tactic(auto)]

mod areas;
mod subject;
mod tables;

use case_text::Case;
use std::alloc::{AllocError, Global};
use std::io;
use subject::Subject;
use tables::Table;
use vectors::driver;
use vectors::driver::Letter;

// What a line does or asks.
#[derive(Clone, Copy)]
enum Kind {
    Mark,
    Example,
    OpenFile,
    List,
    ListFree,
    SetRecord,
    Table(Table),
}

// The letter of each kind, with the row of its tally and how many byte strings its lines have.
const LETTERS: [Letter<Kind>; 12] = [
    Letter {
        letter: b'b',
        kind: Kind::Mark,
        row: Some(0),
        strings: 2,
    },
    Letter {
        letter: b'e',
        kind: Kind::Example,
        row: Some(1),
        strings: 3,
    },
    Letter {
        letter: b'f',
        kind: Kind::OpenFile,
        row: Some(2),
        strings: 1,
    },
    Letter {
        letter: b'l',
        kind: Kind::List,
        row: Some(3),
        strings: 1,
    },
    Letter {
        letter: b'L',
        kind: Kind::ListFree,
        row: Some(4),
        strings: 0,
    },
    Letter {
        letter: b't',
        kind: Kind::Table(Table::Whole),
        row: None,
        strings: 1,
    },
    Letter {
        letter: b'w',
        kind: Kind::Table(Table::Runs),
        row: None,
        strings: 2,
    },
    Letter {
        letter: b'r',
        kind: Kind::Table(Table::Rule),
        row: None,
        strings: 1,
    },
    Letter {
        letter: b'd',
        kind: Kind::Table(Table::Draws),
        row: None,
        strings: 1,
    },
    Letter {
        letter: b'c',
        kind: Kind::Table(Table::Part),
        row: None,
        strings: 1,
    },
    Letter {
        letter: b'n',
        kind: Kind::Table(Table::Front),
        row: None,
        strings: 0,
    },
    Letter {
        letter: b'm',
        kind: Kind::SetRecord,
        row: None,
        strings: 0,
    },
];

const ROWS: [&str; 5] = [
    "blocks",
    "examples",
    "files",
    "listings",
    "listings left free",
];

// Whether a line's answers are those of the proved functions. `alloc` goes along to where a Vec is made, which asks for it.
fn is_same(
    alloc: Global,
    kind: Kind,
    case: Case<'_>,
    subject: &mut Subject,
) -> Result<bool, AllocError> {
    let given = case.numbers;
    let one = case.string(0);
    let other = case.string(1);
    match kind {
        Kind::OpenFile => subject.opens(alloc, given, one),
        Kind::SetRecord => Ok(subject.sets_record(given)),
        Kind::Table(how) => subject.sets_table(alloc, how, case),
        Kind::Mark => Ok(subject.marks(given, one, other)),
        Kind::Example => subject.gives_example(alloc, given, one, other, case.string(2)),
        Kind::List => subject.lists(alloc, given, one),
        Kind::ListFree => subject.may_list(alloc, given),
    }
}

fn main(rt: HostRuntime) -> io::Result<()> {
    let mut subject = Subject::new(rt.alloc());
    driver::replay(
        &rt,
        &LETTERS,
        &ROWS,
        |kind, case| Ok(is_same(rt.alloc(), kind, case, &mut subject)?),
    )
}
