// The strings that leave a key at a place: the first of them, and how it is written.
#![tactic(auto)]

mod tail;

ghost use Rattle.std.specs.Prelude.{◌≡◌, [], ◌∷◌, ◌++◌, ◌+◌, ◌^◌, ◌≤◌, ◌<◌, length, take};
ghost use Rattle.std.proofs.lemmas.List.Edits.{sets};
ghost use Rattle.automaton.specs.Bits.{Exactly};
ghost use Rattle.automaton.specs.Table.{states};
ghost use Rattle.automaton.specs.Words.{run, Hits};
ghost use Rattle.example_distance.specs.Measured.{IsMeasured};
ghost use Rattle.example_leaving.specs.First.{FirstIn};
ghost use Rattle.example_leaving.specs.Leaving.{NearestByteOf, FirstBetween, LeavesTo, StringPut, no_place};

use crate::tail::write_tail;
use example_distance::Measured;

// A string that begins with a key's first `place` bytes; a byte behind them leads to `state`, and the first of all strings from there to
// acceptance ends it. Its last byte stands at `last`. Where there is no string, `last` is above each place, so that two are
// compared without a case.
#[derive(Clone, Copy)]
pub struct Leaving<'a> {
    pub key: &'a [u8],
    pub place: usize,
    pub byte: u8,
    pub state: usize,
    pub last: usize,
}

// Of the bytes from lo on and below hi the lowest that leads to a state of least distance. No byte leads to a state more than one
// nearer: where one does that, the loop ends. lo and hi stay two: one is a byte and one more, the other a byte.
fn nearest_byte(measured: &Measured, state: usize, lo: usize, hi: usize) -> Option<usize>
    requires { IsMeasured measured.now × (state < states measured.now.table.bytes.now) × (hi ≤ 256) }
    ensures { NearestByteOf measured.now.table.bytes.now measured.now.distances state lo hi result }
{
    let bound = measured.distances[state].saturating_sub(1);
    let mut nearest = None;
    let mut least: u8 = 64;
    for byte in lo..hi {
        let distance = measured.distances[measured.table.accept(state, byte as u8)];
        if distance < least {
            nearest = Some(byte);
            least = distance;
            if distance == bound {
                break;
            }
        }
    }
    nearest
}

impl<'a> Leaving<'a> {
    // No string.
    pub fn none(key: &'a [u8]) -> Leaving<'a>
        ensures { result.last ≡ no_place }
    {
        Leaving {
            key,
            place: 0,
            byte: 0,
            state: 0,
            last: usize::MAX,
        }
    }

    pub fn is_none(&self) -> bool
        ensures { Exactly result (self.now.last ≡ no_place) }
    {
        self.last == usize::MAX
    }

    // The first of the strings that leave the key at the place, in the state, by a byte from lo on and below hi.
    pub fn first_at(
        measured: &Measured,
        key: &'a [u8],
        place: usize,
        state: usize,
        lo: usize,
        hi: usize,
    ) -> Leaving<'a>
        requires measured { IsMeasured measured.now × (state < states measured.now.table.bytes.now)
            × (state ≡ run measured.now.table.bytes.now 0 (take place key.now)) }
        requires place_in_bounds { (place ≤ length key.now) × (length key.now + 64 < 2 ^ 64) × (hi ≤ 256) }
        ensures { FirstBetween measured.now.table.bytes.now measured.now.distances
            (take place key.now ++ (lo ∷ [])) (take place key.now ++ (hi ∷ [])) result }
    {
        let Some(byte) = nearest_byte(measured, state, lo, hi) else {
            return Leaving::none(key);
        };
        let byte = byte as u8;
        let to = measured.table.accept(state, byte);
        Leaving {
            key,
            place,
            byte,
            state: to,
            last: place + usize::from(measured.distances[to]),
        }
    }

    // Writes the string to the front of the output. Returns its length.
    pub fn write(self, measured: &Measured, out: &mut [u8]) -> usize
        requires { IsMeasured measured.now × LeavesTo measured.now.table.bytes.now measured.now.distances self
            × (self.last < length out.old) }
        ensures { StringPut measured.now.table.bytes.now self.entry out.old out.new result }
    {
        byte_copy::copy(&self.key[..self.place], out);
        out[self.place] = self.byte;
        write_tail(measured, self.state, out, self.place + 1)
    }
}
