// Replays a list of answers, made by running the Rust, against the proved address store, and counts the cases that differ.
#![tactic(auto)]

mod blocks;
mod cases;
mod hash;
mod stores;

use case_text::Case;
use std::alloc::{AllocError, Global};
use std::io;
use vectors::driver;
use vectors::driver::Letter;

// What a line is about.
#[derive(Clone, Copy)]
enum Kind {
    Store,
    Large,
    Refused,
    Block,
    Unknown,
    Located,
}

// The letter of each kind, with the row of its tally and how many byte strings its lines have.
const LETTERS: [Letter<Kind>; 6] = [
    Letter {
        letter: b's',
        kind: Kind::Store,
        row: Some(0),
        strings: 1,
    },
    Letter {
        letter: b'h',
        kind: Kind::Large,
        row: Some(1),
        strings: 0,
    },
    Letter {
        letter: b'r',
        kind: Kind::Refused,
        row: Some(5),
        strings: 0,
    },
    Letter {
        letter: b'i',
        kind: Kind::Block,
        row: Some(2),
        strings: 1,
    },
    Letter {
        letter: b'u',
        kind: Kind::Unknown,
        row: Some(3),
        strings: 1,
    },
    Letter {
        letter: b'o',
        kind: Kind::Located,
        row: Some(4),
        strings: 1,
    },
];

const ROWS: [&str; 6] = [
    "stores",
    "large stores",
    "ids",
    "unknown ids",
    "ordinals",
    "refused stores",
];

// Whether a case's answers are those of the proved functions. `alloc` goes along to where a Vec is made, which asks for it.
fn is_same(alloc: Global, kind: Kind, case: Case<'_>) -> Result<bool, AllocError> {
    let given = case.numbers;
    let store = case.string(0);
    match kind {
        Kind::Store => cases::is_store(alloc, given, store),
        Kind::Large => cases::is_large(alloc, given),
        Kind::Refused => cases::is_refused(alloc, given),
        Kind::Block => Ok(cases::is_block(given, store)),
        Kind::Unknown => Ok(cases::is_unknown(given)),
        Kind::Located => Ok(cases::is_located(given, store)),
    }
}

fn main(rt: HostRuntime) -> io::Result<()> {
    driver::replay(
        &rt,
        &LETTERS,
        &ROWS,
        |kind, case| Ok(is_same(rt.alloc(), kind, case)?),
    )
}
