// The list's calls, made.
ghost use Rattle.std.specs.Prelude.{◌≡◌, List, ℕ, ◌+◌, ◌*◌, ◌≤◌, ◌<◌, length};
ghost use Rattle.std.proofs.lemmas.List.Edits.{sets};
ghost use Rattle.machine.specs.Runs.{call_def, run_numbers, run_end};
ghost use Rattle.replay_format.specs.Format.{calls, call_count};
ghost use Rattle.replay_format.specs.Read.{call_of};
ghost use Rattle.replay.specs.Made.{call_cells, fresh_of};
ghost use Rattle.replay.specs.Steps.{state_of, leaves};

use builder::SSTableIndexBuilder;
use replay_cells::{Cells, WIDTH};
use replay_format::Call;

// Makes the call on the builder that the last one left. Returns its number and the builder that it leaves.
#[tactic(auto, unfolding(machine::specs::Runs::call_def))]
fn make_call(
    call: Call,
    builder: SSTableIndexBuilder,
    blocks: &mut [u64],
    keys: &mut [u8],
) -> (u32, SSTableIndexBuilder)
    ensures { leaves result blocks.new keys.new
        ≡ call_def (call_of call.entry) (state_of builder blocks.old keys.old) }
{
    let answer = match call {
        Call::Add(key, block) => builder_add::add_block(builder, blocks, keys, key, block),
        Call::ShortenLast(next_key) => {
            builder_add::shorten_last_block_key_given_next_key(builder, blocks, keys, next_key)
        }
    };
    builder::number_and_builder(answer)
}

// Makes the list's calls on a fresh builder, each on what the last one left, and writes their numbers. A loop,
// since a call stands where the one before it ends.
pub fn make_calls(
    list: &replay_format::List,
    blocks: &mut [u64],
    keys: &mut [u8],
    answers: &mut [u64],
) -> SSTableIndexBuilder
    requires { 5 * call_count list.now.head.list.now ≤ length answers.old }
    ensures leaves_state { state_of result blocks.new keys.new
        ≡ run_end (calls list.now.head.list.now) (fresh_of blocks.old keys.old) }
    ensures answers_after { answers.new ≡ sets answers.old 0
        (call_cells (run_numbers (calls list.now.head.list.now) (fresh_of blocks.old keys.old))) }
{
    let bytes = list.head.list;
    let mut builder = SSTableIndexBuilder::new(0);
    let mut at = list.head.calls_from();
    for i in 0..list.head.call_count() {
        let (number, left) = make_call(Call::at(bytes, at), builder, blocks, keys);
        Cells::number(number).write(answers, WIDTH * i);
        builder = left;
        at += replay_format::call_len(bytes, at).unwrap();
    }
    builder
}
