// Replays a list of calls, with numbers from a plain model and bytes from the Rust, against the proved builder, and
// counts the calls whose answers differ.
#![tactic(auto)]

mod areas;
mod large;
mod lent;

use case_text::Case;
use lent::Lent;
use std::alloc::{AllocError, Global};
use std::io;
use vectors::driver;
use vectors::driver::Letter;

// What a line does or is about.
#[derive(Clone, Copy)]
enum Kind {
    Add,
    AddToMany,
    Shorten,
    State,
    Finish,
    FinishMany,
    Renew,
    Set,
}

// The letter of each kind, with the row of its tally and how many byte strings its lines have.
const LETTERS: [Letter<Kind>; 8] = [
    Letter {
        letter: b'a',
        kind: Kind::Add,
        row: Some(0),
        strings: 1,
    },
    Letter {
        letter: b'm',
        kind: Kind::AddToMany,
        row: Some(0),
        strings: 1,
    },
    Letter {
        letter: b'k',
        kind: Kind::Shorten,
        row: Some(1),
        strings: 1,
    },
    Letter {
        letter: b'e',
        kind: Kind::State,
        row: Some(2),
        strings: 1,
    },
    Letter {
        letter: b'f',
        kind: Kind::Finish,
        row: Some(3),
        strings: 1,
    },
    Letter {
        letter: b'h',
        kind: Kind::FinishMany,
        row: Some(3),
        strings: 0,
    },
    Letter {
        letter: b'n',
        kind: Kind::Renew,
        row: None,
        strings: 0,
    },
    Letter {
        letter: b'r',
        kind: Kind::Set,
        row: None,
        strings: 1,
    },
];

const ROWS: [&str; 4] = ["adds", "shortens", "states", "finishes"];

// Whether a line's answers are those of the proved functions. `alloc` goes along to where a Vec is made, which asks for it.
fn is_same(alloc: Global, kind: Kind, case: Case<'_>, lent: &mut Lent) -> Result<bool, AllocError> {
    let given = case.numbers;
    let text = case.string(0);
    match kind {
        Kind::Renew => lent.renew(alloc, given),
        Kind::Set => lent.set(alloc, given, text),
        Kind::Add => lent.adds(given, text),
        Kind::Shorten => lent.shortens(given, text),
        Kind::State => Ok(lent.holds(given, text)),
        Kind::Finish => lent.finishes(alloc, given, text),
        Kind::AddToMany => large::adds(alloc, given, text),
        Kind::FinishMany => large::finishes(alloc, given),
    }
}

fn main(rt: HostRuntime) -> io::Result<()> {
    let mut lent = Lent::new(rt.alloc(), 0, 0)?;
    driver::replay(
        &rt,
        &LETTERS,
        &ROWS,
        |kind, case| Ok(is_same(rt.alloc(), kind, case, &mut lent)?),
    )
}
