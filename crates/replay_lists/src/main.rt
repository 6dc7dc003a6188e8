// Replays stored lists of calls and questions through the proved function, and prints what they answer and leave.
#![tactic(auto)]

mod areas;
mod list;
mod prints;

use areas::{Areas, Lens};
use case_text::{Case, Line, Room};
use std::io;
use vectors::driver;

// What a line asks to be replayed: the parts of a list, how often each stands in it, and the lengths of the areas.
#[derive(Clone, Copy)]
struct Asked<'a> {
    case: Case<'a>,
    lens: Lens,
    counts: &'a [u64],
}

impl<'a> Asked<'a> {
    // What a line asks, if it is one of its kind: the letter `l`, four lengths, and a count for each part.
    fn read(line: Line<'a>) -> Option<Asked<'a>> {
        let Line::Case(case) = line else {
            return None;
        };
        let [blocks, keys, out, answers, counts @ ..] = case.numbers else {
            return None;
        };
        let lens = Lens::new([*blocks, *keys, *out, *answers])?;
        let is_whole = case.kind == b'l' && counts.len() == case.spans.len();
        is_whole.then_some(Asked { case, lens, counts })
    }
}

// Replays the list of a line.
fn replay(rt: &(impl AllocGlobal + Print), line: Line<'_>) -> io::Result<()> {
    let Some(asked) = Asked::read(line) else {
        return prints::bad_line(rt);
    };
    match list::join(rt.alloc(), asked.counts, asked.case)? {
        Some(list) => prints::replayed(rt, &list, &mut Areas::new(rt.alloc(), asked.lens)?),
        None => prints::bad_line(rt),
    }
}

// Replays all lists of the text.
fn replay_all(rt: &(impl AllocGlobal + Print), text: &[u8]) -> io::Result<()> {
    let mut room = Room::new(rt.alloc(), 260, 256, 16_384)?;
    // Counted by hand: a comment is no list, and only `parse` tells which line is one.
    let mut place: u64 = 0;
    for line in text.split_inclusive(|byte| *byte == b'\n') {
        let line = room.parse(line);
        if !matches!(line, Line::Comment) {
            place = place.saturating_add(1);
            print!(rt; "list {place}: ")?;
            replay(rt, line)?;
        }
    }
    Ok(())
}

fn main(rt: HostRuntime) -> io::Result<()> {
    let mut area = vec![in rt.alloc(); 0u8; driver::TEXT_LEN]?;
    if let Some(text) = driver::read(&rt, &mut area)? {
        replay_all(&rt, text)?;
    }
    Ok(())
}
