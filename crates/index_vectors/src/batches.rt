// Lookups of several keys at once: whether number and id area are those of the list, or allowed.
use crate::lookup::Lookup;
use layout::refusals::Refusal;
use std::alloc::{AllocError, Global};
use vector_parts::area::front;
use vector_parts::told::is_told;

// The longest id area of a line.
const MOST_ROOM: usize = 80;

// What an id holds that nobody wrote: no line has such an id.
const JUNK: u64 = 6_510_615_555_426_900_570;

// A batch's answer, and the ids' area behind it.
#[derive(Drop)]
struct Asked {
    answer: Result<(), Refusal>,
    ids: Vec<u64>,
}

// ROOM WORDS W ..: the ids' room, 0 where it is larger than the area; the words, and what follows them in the line
fn parts(given: &[u64]) -> Option<(usize, &[u64], &[u64])> {
    let [room, count, others @ ..] = given else {
        return None;
    };
    let (words, behind) = others.split_at_checked(*count as usize)?;
    let room = *room as usize;
    Some((if room <= MOST_ROOM { room } else { 0 }, words, behind))
}

impl Lookup<'_> {
    fn ask(self, alloc: Global, room: usize, words: &[u64]) -> Result<Asked, AllocError> {
        let mut ids = vec![in alloc; JUNK; room]?;
        let answer = self.opened.locate_with_keys(words, self.key, &mut ids);
        // The rest of the area, which isn't lent.
        ids.resize(MOST_ROOM, JUNK)?;
        Ok(Asked { answer, ids })
    }

    // ROOM WORDS W .. NO ID ..
    pub fn finds_batch(self, alloc: Global) -> Result<bool, AllocError> {
        let Some((room, words, [no, due @ ..])) = parts(self.given) else {
            return Ok(false);
        };
        let mut asked = self.ask(alloc, room, words)?;
        // An id that the area doesn't have is 0.
        asked.ids.resize(due.len().max(MOST_ROOM), 0)?;
        Ok(
            is_told(&[*no], asked.answer.map(|()| []))
                && front(&asked.ids, due.len(), JUNK) == Some(due),
        )
    }

    // ROOM WORDS W ..: with a record that may not belong to the bytes.
    pub fn may_find_batch(self, alloc: Global) -> Result<bool, AllocError> {
        let Some((room, words, [])) = parts(self.given) else {
            return Ok(false);
        };
        let asked = self.ask(alloc, room, words)?;
        let n = self.opened.block_count() as u64;
        Ok(match asked.answer {
            Ok(()) => front(&asked.ids, words.len() / 2, JUNK).is_some_and(|ids| ids
                .iter()
                .all(|id| *id < n || *id == u64::MAX)),
            Err(Refusal::Unfit | Refusal::KeyListBad) => front(&asked.ids, 0, JUNK).is_some(),
            Err(_) => false,
        })
    }
}
