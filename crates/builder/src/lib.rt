// The index builder over two lent areas: `SSTableIndexBuilder` of src/index/mod.rs, and what a finish answers.
#![tactic(auto)]

pub mod record;

ghost use Rattle.std.specs.Prelude.{◌≡◌};
ghost use Rattle.builder.specs.Calls.{builder_of, handed_back, answer_no, answer_builder};

use layout::refusals::Refusal;

// How many blocks the areas have. The areas stay the caller's and go beside it, as C hands them: the library has no heap. The default
// is fresh.
#[derive(Clone, Copy, Default)]
pub struct SSTableIndexBuilder {
    pub n: usize,
}

// Why a call is refused, and the builder as it was.
#[derive(Clone, Copy)]
pub struct Refused {
    pub refusal: Refusal,
    pub builder: SSTableIndexBuilder,
}

// What a finish wrote, the index's length and its directory's; and the builder as it was.
#[derive(Clone, Copy)]
pub struct Written {
    pub builder: SSTableIndexBuilder,
    pub total: usize,
    pub directory_len: usize,
}

impl SSTableIndexBuilder {
    // A builder of n blocks; with 0 it is fresh.
    pub fn new(n: usize) -> SSTableIndexBuilder
        ensures { result ≡ builder_of n }
    {
        SSTableIndexBuilder { n }
    }

    // An answer whose refusal hands this builder back.
    pub fn hand_back<T: Drop>(self, answer: Result<T, Refusal>) -> Result<T, Refused>
        ensures { result ≡ handed_back self answer }
    {
        answer.map_err(|refusal| Refused {
            refusal,
            builder: self,
        })
    }
}

// An answer's number, 0 where the call is taken, and the builder that it hands back in either case. A match: both sides give a pair, and
// map_or_else would take two closures for the same two lines.
pub fn number_and_builder(
    answer: Result<SSTableIndexBuilder, Refused>,
) -> (u32, SSTableIndexBuilder)
    ensures { (result.0 ≡ answer_no answer) × (result.1 ≡ answer_builder answer) }
{
    match answer {
        Ok(builder) => (0, builder),
        Err(refused) => (u32::from(refused.refusal), refused.builder),
    }
}
