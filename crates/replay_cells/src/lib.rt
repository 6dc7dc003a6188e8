// An answer: five numbers. The answers of a list stand in one list of numbers, as its caller lends it, and the contracts speak of all of
// it: as rows (`as_chunks_mut`) the numbers behind the last one would be a list of their own.
#![tactic(auto)]

ghost use Rattle.std.specs.Prelude.{◌≡◌, ℕ, ◌+◌, ◌≤◌, length, MatchResult, MatchOption, [], ◌∷◌};
ghost use Rattle.std.proofs.lemmas.List.Edits.{sets};
ghost use Rattle.layout.specs.Refusals.{number_of};
ghost use Rattle.replay_cells.specs.Cells.{cells, cells_of};

use builder::Written;
use group::BlockAddr;
use layout::refusals::Refusal;
use store::Located;

// How many numbers an answer has.
pub const WIDTH: usize = 5;

// Its number first, then what it answers.
#[derive(Clone, Copy)]
pub struct Cells(pub [u64; WIDTH]);

impl Cells {
    // A number alone.
    pub fn number(no: u32) -> Cells
        ensures { cells_of result ≡ cells «no» 0 0 0 0 }
    {
        Cells([u64::from(no), 0, 0, 0, 0])
    }

    // What is answered, or the refusal's number.
    pub fn answered<T: Into<Cells>>(answer: Result<T, Refusal>) -> Cells
        ensures { MatchResult answer (λ value. T.converts value result)
            (λ refusal. cells_of result ≡ cells (number_of refusal) 0 0 0 0) }
    {
        answer.map_or_else(Cells::from, T::into)
    }

    // Writes the five numbers from `at` on.
    pub fn write(self, answers: &mut [u64], at: usize)
        requires { at + 5 ≤ length answers.old }
        ensures written { answers.new ≡ sets answers.old at (cells_of self) }
        ensures five { length (cells_of self) ≡ 5 }
    {
        answers[at..at + WIDTH].copy_from_slice(&self.0);
    }
}

// A refusal's number.
impl From<Refusal> for Cells {
    ghost from_gives = { λ refusal x. cells_of x ≡ cells (number_of refusal) 0 0 0 0 };

    fn from(refusal: Refusal) -> Cells {
        Cells::number(u32::from(refusal))
    }
}

// A block's address.
impl From<BlockAddr> for Cells {
    ghost from_gives = { λ block x. cells_of x ≡ cells 0 0 block.start block.end block.first_ordinal };

    fn from(block: BlockAddr) -> Cells {
        Cells([0, 0, block.start, block.end, block.first_ordinal])
    }
}

// An id with its address.
impl From<Located> for Cells {
    ghost from_gives = { λ found x. cells_of x ≡ cells 0 found.block_id found.addr.start found.addr.end found.addr.first_ordinal };

    fn from(found: Located) -> Cells {
        let block = found.addr;
        Cells([
            0,
            found.block_id as u64,
            block.start,
            block.end,
            block.first_ordinal,
        ])
    }
}

// An id.
impl From<usize> for Cells {
    ghost from_gives = { λ id x. cells_of x ≡ cells 0 id 0 0 0 };

    fn from(id: usize) -> Cells {
        Cells([0, id as u64, 0, 0, 0])
    }
}

// What a finish wrote.
impl From<Written> for Cells {
    ghost from_gives = { λ written x. cells_of x ≡ cells 0 written.total written.directory_len 0 0 };

    fn from(written: Written) -> Cells {
        Cells([0, written.total as u64, written.directory_len as u64, 0, 0])
    }
}

// Where a separator stands.
impl From<Option<(usize, usize)>> for Cells {
    ghost from_gives = { λ place x. MatchOption place (cells_of x ≡ cells 0 0 0 0 0) (λ p. cells_of x ≡ cells 0 p.0 p.1 1 0) };

    fn from(place: Option<(usize, usize)>) -> Cells {
        place.map_or(
            Cells::number(0),
            |(offset, len)| Cells([0, offset as u64, len as u64, 1, 0]),
        )
    }
}
