// The areas that a list is replayed in.
use replay::ReplayError;
use std::alloc::{AllocError, Global};
use std::fmt;
use vector_parts::area::remainder;

// What they hold before.
const MARK: u8 = 0xa5;

const NUMBER_MARK: u64 = 0xa5a5_a5a5_a5a5_a5a5;

// The base and the modulus of an area's remainder.
const BASE: u64 = 65599;

const MODULUS: u64 = 4294967291;

// How long the areas are: at most as long as they may be.
#[derive(Clone, Copy)]
pub struct Lens {
    blocks: usize,
    keys: usize,
    out: usize,
    answers: usize,
}

impl Lens {
    // The four lengths of a line, if none is too long.
    pub fn new(lens: [u64; 4]) -> Option<Lens> {
        let [
            blocks @ ..=1300,
            keys @ ..=4096,
            out @ ..=4096,
            answers @ ..=2048,
        ] = lens
        else {
            return None;
        };
        Some(Lens {
            blocks: blocks as usize,
            keys: keys as usize,
            out: out as usize,
            answers: answers as usize,
        })
    }
}

#[derive(Drop)]
pub struct Areas {
    pub blocks: Vec<u64>,
    pub keys: Vec<u8>,
    pub out: Vec<u8>,
    pub answers: Vec<u64>,
}

impl Areas {
    // Areas of these lengths, full of marks.
    pub fn new(alloc: Global, lens: Lens) -> Result<Areas, AllocError> {
        Ok(Areas {
            blocks: vec![in alloc; NUMBER_MARK; lens.blocks]?,
            keys: vec![in alloc; MARK; lens.keys]?,
            out: vec![in alloc; MARK; lens.out]?,
            answers: vec![in alloc; NUMBER_MARK; lens.answers]?,
        })
    }

    pub fn replay(&mut self, list: &[u8]) -> Result<(), ReplayError> {
        replay::replay(
            list,
            &mut self.blocks,
            &mut self.keys,
            &mut self.out,
            &mut self.answers,
        )
    }
}

// A remainder of each area, so that any other byte shows.
impl fmt::Display for Areas {
    fn fmt<W: fmt::Write>(&self, f: &mut fmt::Formatter<W>) -> fmt::Result {
        let blocks = remainder(&self.blocks, BASE, MODULUS);
        let keys = remainder(&self.keys, BASE, MODULUS);
        let out = remainder(&self.out, BASE, MODULUS);
        let answers = remainder(&self.answers, BASE, MODULUS);
        write!(f, "areas {blocks} {keys} {out} {answers}")
    }
}
