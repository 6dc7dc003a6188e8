// Replays a list of answers, made by running the Rust, against the proved functions, and counts the cases that differ.
#![tactic(auto)]

mod cases;
mod pack;

use case_text::Case;
use cases::Area;
use std::io;
use vectors::driver;
use vectors::driver::Letter;

// What a line is about.
#[derive(Clone, Copy)]
enum Kind {
    Width,
    Number,
    Slope,
    Fields,
    Read,
    Group,
    Shortened,
    Prefix,
}

// The letter of each kind, with the row of its tally and how many byte strings its lines have.
const LETTERS: [Letter<Kind>; 8] = [
    Letter {
        letter: b'n',
        kind: Kind::Width,
        row: Some(0),
        strings: 0,
    },
    Letter {
        letter: b'l',
        kind: Kind::Number,
        row: Some(1),
        strings: 1,
    },
    Letter {
        letter: b'p',
        kind: Kind::Slope,
        row: Some(2),
        strings: 0,
    },
    Letter {
        letter: b'b',
        kind: Kind::Fields,
        row: Some(3),
        strings: 1,
    },
    Letter {
        letter: b'x',
        kind: Kind::Read,
        row: Some(4),
        strings: 1,
    },
    Letter {
        letter: b'g',
        kind: Kind::Group,
        row: Some(5),
        strings: 1,
    },
    Letter {
        letter: b's',
        kind: Kind::Shortened,
        row: Some(6),
        strings: 3,
    },
    Letter {
        letter: b'c',
        kind: Kind::Prefix,
        row: Some(7),
        strings: 2,
    },
];

const ROWS: [&str; 8] = [
    "widths",
    "numbers",
    "slopes",
    "fields",
    "reads",
    "groups",
    "shortened keys",
    "common prefixes",
];

// Whether a case's answers are those of the proved functions.
fn is_same(kind: Kind, case: Case<'_>) -> bool {
    let mut area: Area = [cases::MARK; 8192];
    let numbers = case.numbers;
    let first = case.string(0);
    let second = case.string(1);
    match kind {
        Kind::Width => cases::same_width(numbers),
        Kind::Number => cases::same_number(numbers, first, &mut area),
        Kind::Slope => cases::same_slope(numbers),
        Kind::Fields => cases::same_fields(numbers, first, &mut area),
        Kind::Read => cases::same_read(numbers, first),
        Kind::Group => cases::same_group(numbers, first, &mut area),
        Kind::Shortened => cases::same_shortened(first, second, case.string(2), &mut area),
        Kind::Prefix => cases::same_prefix(numbers, first, second),
    }
}

fn main(rt: HostRuntime) -> io::Result<()> {
    driver::replay(&rt, &LETTERS, &ROWS, |kind, case| Ok(is_same(kind, case)))
}
