// Bits of one word.
ghost use Rattle.std.specs.Prelude.{◌≡◌, ◌<◌};
ghost use Rattle.automaton.specs.Bits.{bit, Exactly};

pub fn is_set(word: u64, s: usize) -> bool
    requires { s < 64 }
    ensures { Exactly result (bit word s ≡ 1) }
{
    (word >> s) & 1 == 1
}

// The places of a word's set bits, the lowest first: `left` has those that are still to come.
#[derive(Clone, Copy)]
pub struct SetBits {
    pub left: u64,
}

impl Iterator for SetBits {
    ghost use Rattle.std.specs.Iterator.{at_most};
    ghost use Rattle.automaton.specs.SetBits.{TakesLowest};

    type Item = usize;

    ghost next_gives = { λ before answer after. TakesLowest before.left answer after.left };

    ghost remaining = { λ bits. at_most bits.left };

    fn next(&mut self) -> Option<usize> {
        let word = self.left;
        if word == 0 {
            return None;
        }
        self.left = word & (word - 1);
        Some(u64::trailing_zeros(word) as usize)
    }
}
