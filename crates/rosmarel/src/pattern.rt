// Patterns: the blocks that can hold a key of one, and an example of such a key. An interval's start may be absent: a flag beside it says
// so, and a match is 1 or 0, since C has no Option.
ghost use Rattle.std.specs.Prelude.{◌≤◌, eqb};
ghost use Rattle.pruning.specs.Interval.{start_of};
ghost use Rattle.pruning.specs.Answers.{CanBlockMatch};
ghost use Rattle.example.specs.Example.{ExampleFor};
ghost use Rattle.listing.specs.Listing.{GetBlockForAutomaton};
ghost use Rattle.index.specs.Words.{opened_at};

use crate::answers::put_count;
use index::SSTableIndexV3;
use layout::refusals;

// Marks each block that can hold a key that the automaton accepts: n bytes, 0 or 1.
#[unsafe(no_mangle)]
pub extern "C" fn rosmarel_list(
    index: &[u8],
    opened: &[u64; 9],
    automaton: &[u8],
    marks: &mut [u8],
    count: &mut u64,
) -> u32
    ensures { GetBlockForAutomaton index.now (opened_at opened.now) automaton.now
        marks.old marks.new result count.new }
{
    let opened = SSTableIndexV3::from(*opened);
    put_count(
        listing::get_block_for_automaton(opened, index, automaton, marks),
        count,
    )
}

// Whether a key above `start` and not above `end` can match, as 1 or 0.
#[unsafe(no_mangle)]
pub extern "C" fn rosmarel_can_block_match(
    has_start: bool,
    start: &[u8],
    end: &[u8],
    automaton: &[u8],
    matches: &mut u64,
) -> u32
    ensures can_block_match { CanBlockMatch automaton.now (start_of has_start start.now) end.now result
        (eqb matches.new 1) }
    ensures matches_bound { matches.new ≤ 1 }
{
    let can = pruning_match::can_block_match_automaton(has_start.then_some(start), end, automaton);
    *matches = u64::from(can.unwrap_or(false));
    refusals::number(can)
}

// Writes the first accepted string above `start` and not above `end` to the front of `out`: the shortest, and of those the lowest.
#[unsafe(no_mangle)]
pub extern "C" fn rosmarel_example(
    has_start: bool,
    start: &[u8],
    end: &[u8],
    automaton: &[u8],
    out: &mut [u8],
    len: &mut u64,
) -> u32
    ensures { ExampleFor automaton.now (start_of has_start start.now) end.now
        out.old out.new result len.new }
{
    put_count(
        example::example(has_start.then_some(start), end, automaton, out),
        len,
    )
}
