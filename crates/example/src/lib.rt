// A string that a block's pattern finds: the first accepted string of an interval of keys.
#![tactic(auto)]

ghost use Rattle.std.specs.Prelude.{◌+◌, ◌≤◌};
ghost use Rattle.automaton.specs.Bits.{Exactly};
ghost use Rattle.pruning.specs.Interval.{start_now};
ghost use Rattle.example.specs.Example.{longer, example_answer_no, example_answer_len, ExampleFor};

use automaton::table::Table;
use example_distance::Measured;
use example_walk::first_between;
use layout::refusals::Refusal;

// What an example has beyond its key at most: a byte and a tail of 63.
const BEYOND: usize = 64;

// Whether an output of this length has room for every example: for the longer key, and what it has beyond.
fn has_room(start_key: Option<&[u8]>, end_key: &[u8], room: usize) -> bool
    ensures { Exactly result (longer (start_now start_key.entry) end_key.now + 64 ≤ room) }
{
    let longer = start_key
        .map_or(0, |start_key| start_key.len())
        .max(end_key.len());
    room.checked_sub(BEYOND).is_some_and(|left| longer <= left)
}

// Writes the shortest accepted string above `start_key` and not above `end_key`, and of those the lowest, to the front of `out`, which is
// lent, since there is no heap; the first block has no start key. But for the empty string, none is the same as an empty one.
pub fn example(
    start_key: Option<&[u8]>,
    end_key: &[u8],
    table: &[u8],
    out: &mut [u8],
) -> Result<usize, Refusal>
    ensures { ExampleFor table.now (start_now start_key.entry) end_key.now
        out.old out.new (example_answer_no result) (example_answer_len result) }
{
    let table = Table::check(table)?;
    if !has_room(start_key, end_key, out.len()) {
        return Err(Refusal::RoomShort);
    }
    let measured = Measured::new(table);
    if start_key.is_none() && measured.distances[0] == 0 {
        return Ok(0);
    }
    let first = first_between(&measured, start_key.unwrap_or(&[]), end_key);
    if first.is_none() {
        return Err(Refusal::NoExample);
    }
    Ok(first.write(&measured, out))
}
