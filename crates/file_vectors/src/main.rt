// Replays the files of the folder vectors/: each argument names one, and its answers are held to those beside it.
#![tactic(auto)]

mod files;
mod indexes;
mod marks;
mod questions;

use std::rt::Files;
use std::{env, io};
use vector_parts::tally::Tallies;

const ROWS: [&str; 3] = ["index files", "questions", "automata"];

// A row's place in the list of names, as `Tallies::count` takes it.
const ROW_OF_INDEXES: usize = 0;

const ROW_OF_QUESTIONS: usize = 1;

const ROW_OF_AUTOMATA: usize = 2;

// Counts the file of this name, whose kind stands behind the last dot. A name of no kind differs.
fn replay(rt: &(impl Files + AllocGlobal), name: &str, tallies: &mut Tallies) -> io::Result<()> {
    match name.rsplit_once('.') {
        Some((_, "index")) => tallies.count(Some(ROW_OF_INDEXES), indexes::is_same(rt, name)?),
        Some((_, "questions")) => questions::count(rt, name, tallies)?,
        Some((_, "automaton")) => tallies.count(Some(ROW_OF_AUTOMATA), marks::is_same(rt, name)?),
        _ => tallies.count(None, false),
    }
    Ok(())
}

fn main(rt: HostRuntime) -> io::Result<()> {
    let mut tallies = Tallies::new(rt.alloc(), &ROWS)?;
    for name in env::args(&rt)?.skip(1) {
        let before = tallies.all.differ;
        replay(&rt, name.as_str(), &mut tallies)?;
        let word = if tallies.all.differ == before {
            "ok"
        } else {
            "differs"
        };
        println!(rt; "{name} {word}")?;
    }
    tallies.print(&rt)
}
