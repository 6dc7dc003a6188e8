// Answers as a list gives them.
ghost use Rattle.std.specs.Prelude.{◌≡◌, ◌↔◌, ◌∷◌, true};
ghost use Rattle.vector_parts.specs.Told.{told};

use layout::refusals::Refusal;

// Whether the numbers are these.
fn are(given: &[u64], no: u32, others: &[u64]) -> bool
    ensures { (result ≡ true) ↔ (given.now ≡ no ∷ others.now) }
{
    given
        .split_first()
        .is_some_and(|(first, rest)| *first == u64::from(no) && rest == others)
}

// Whether the numbers are those of an answer: 0 and its own, or a refusal's number and zeros.
pub fn is_told<const N: usize>(given: &[u64], answer: Result<[u64; N], Refusal>) -> bool
    ensures { (result ≡ true) ↔ (given.now ≡ told N answer.entry) }
{
    // A match: map_or_else would take two closures for these two lines.
    match answer {
        Ok(numbers) => are(given, 0, &numbers),
        Err(refusal) => are(given, u32::from(refusal), &[0; N]),
    }
}
