// What is handed out beside an answer's number: the value, or zeros where it is refused.
ghost use Rattle.std.specs.Prelude.{◌≡◌};
ghost use Rattle.layout.specs.Refusals.{no_of};
ghost use Rattle.index.specs.Answers.{located_no, located_id, located_addr};
ghost use Rattle.rosmarel.specs.Answers.{block_with, count_given};

use group::BlockAddr;
use layout::refusals::{self, Refusal};
use store::Located;

// Hands out a count, and returns the answer's number.
pub fn put_count(answer: Result<usize, Refusal>, count: &mut u64) -> u32
    ensures { (result ≡ no_of answer) × (count.new ≡ count_given answer) }
{
    *count = answer.unwrap_or(0) as u64;
    refusals::number(answer)
}

// Hands out a block's address.
pub fn put_address(block: BlockAddr, start: &mut u64, end: &mut u64, first_ordinal: &mut u64)
    ensures { block_with start.new end.new first_ordinal.new ≡ block }
{
    *start = block.start;
    *end = block.end;
    *first_ordinal = block.first_ordinal;
}

// Hands out an id with its address, and returns the answer's number.
pub fn put_located(
    answer: Result<Located, Refusal>,
    id: &mut u64,
    start: &mut u64,
    end: &mut u64,
    first_ordinal: &mut u64,
) -> u32
    ensures { (result ≡ located_no answer) × (id.new ≡ located_id answer)
        × (block_with start.new end.new first_ordinal.new ≡ located_addr answer) }
{
    let found = answer.unwrap_or_default();
    *id = found.block_id as u64;
    put_address(found.addr, start, end, first_ordinal);
    refusals::number(answer)
}
