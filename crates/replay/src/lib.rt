// A list of calls, replayed through the real functions.
#![tactic(auto)]

pub mod calls;
pub mod finish;
pub mod questions;

ghost use Rattle.std.specs.Prelude.{◌≡◌, length, MatchResult, OnOk, OnErr};
ghost use Rattle.replay.specs.Replay.{replay_no, Replayed};
ghost use Rattle.replay.specs.Refused.{error_no, answer_no};

use replay_cells::WIDTH;
use replay_format::List;

// Why a list isn't replayed.
#[derive(Clone, Copy, Debug, PartialEq, Eq)]
pub enum ReplayError {
    // The bytes aren't a list.
    NoList = 101,
    // The answers have no room.
    NoRoom = 102,
}

impl From<ReplayError> for u32 {
    ghost from_gives = { λ error no. no ≡ error_no error };

    fn from(error: ReplayError) -> u32 {
        error as u32
    }
}

// The list, where `room` numbers hold its answers.
#[tactic(auto, unfolding(crate::specs::Replay::replay_no))]
fn read(calls: &[u8], room: usize) -> Result<List<'_>, ReplayError>
    ensures { MatchResult result
        (λ list. (replay_no calls.now room ≡ 0) × (list.head.list.now ≡ calls.now))
        (λ error. error_no error ≡ replay_no calls.now room) }
{
    let list = List::read(calls).ok_or(ReplayError::NoList)?;
    if room < WIDTH * (list.head.call_count() + 2 + list.head.question_count()) {
        return Err(ReplayError::NoRoom);
    }
    Ok(list)
}

// Makes the list's calls on a fresh builder, finishes, opens what that wrote and asks the questions. Writes each answer.
fn replay_list(
    list: &List,
    blocks: &mut [u64],
    keys: &mut [u8],
    out: &mut [u8],
    answers: &mut [u64],
)
    requires { replay_no list.now.head.list.now (length answers.old) ≡ 0 }
    ensures { Replayed list.now.head.list.now blocks.old keys.old out.old answers.old
        blocks.new keys.new out.new answers.new }
{
    let builder = calls::make_calls(list, blocks, keys, answers);
    let count = list.head.call_count();
    let total = finish::finish_list(
        list.head.version(),
        builder,
        blocks,
        keys,
        out,
        answers,
        WIDTH * count,
    );
    questions::open_list(
        &list.head,
        list.questions_at,
        &out[..total],
        answers,
        count + 1,
    );
}

// Replays a list of calls and questions that anyone may have written, or says why not. The four areas stay parameters, here and in
// each part: the calls change blocks and keys, the finish the output, the questions read it, and all write answers.
pub fn replay(
    calls: &[u8],
    blocks: &mut [u64],
    keys: &mut [u8],
    out: &mut [u8],
    answers: &mut [u64],
) -> Result<(), ReplayError>
    ensures value { answer_no result ≡ replay_no calls.now (length answers.old) }
    ensures replayed { OnOk result (Replayed calls.now blocks.old keys.old out.old answers.old
        blocks.new keys.new out.new answers.new) }
    ensures unchanged { OnErr result ((blocks.new ≡ blocks.old) × (keys.new ≡ keys.old)
        × (out.new ≡ out.old) × (answers.new ≡ answers.old)) }
{
    let list = read(calls, answers.len())?;
    replay_list(&list, blocks, keys, out, answers);
    Ok(())
}
