// The finish behind the list's calls.
ghost use Rattle.std.specs.Prelude.{◌≡◌, ◌+◌, ◌≤◌, length};
ghost use Rattle.std.proofs.lemmas.List.Edits.{sets};
ghost use Rattle.builder.specs.Finish.{finish_in};
ghost use Rattle.replay.specs.Made.{finish_cells};

use builder::SSTableIndexBuilder;
use replay_cells::Cells;

// Finishes into `out`, with the list's version, and writes the answer at `at`: its number, the total and the directory's length. Returns
// the total, 0 where it is refused: of such a finish the front of `out` that is opened is empty.
pub fn finish_list(
    version: u64,
    builder: SSTableIndexBuilder,
    blocks: &[u64],
    keys: &[u8],
    out: &mut [u8],
    answers: &mut [u64],
    at: usize,
) -> usize
    requires { at + 5 ≤ length answers.old }
    ensures value { result ≡ (finish_in version builder blocks.now keys.now out.old).total }
    ensures out_after { out.new
        ≡ (finish_in version builder blocks.now keys.now out.old).out }
    ensures answers_after { answers.new ≡ sets answers.old at
        (finish_cells (finish_in version builder blocks.now keys.now out.old)) }
{
    let finished = builder_finish::finish(version, builder, blocks, keys, out).map_err(
        |refused| refused.refusal,
    );
    Cells::answered(finished).write(answers, at);
    finished.map_or(0, |written| written.total)
}
