// The rest of an example: the first of all strings from a state to acceptance.
ghost use Rattle.std.specs.Prelude.{◌≡◌, ◌+◌, ◌≤◌, ◌<◌, length, get_or};
ghost use Rattle.automaton.specs.Table.{states};
ghost use Rattle.example_distance.specs.Measured.{IsMeasured};
ghost use Rattle.example_leaving.specs.Leaving.{Nearer, TailPut};

use example_distance::Measured;

// The lowest byte that leads to a state one nearer. A loop, since `find` takes more instructions a byte.
fn nearer(measured: &Measured, state: usize) -> u8
    requires { IsMeasured measured.now × (state < states measured.now.table.bytes.now)
        × (0 < get_or measured.now.distances state 0) × (get_or measured.now.distances state 0 < 64) }
    ensures { Nearer measured.now.table.bytes.now measured.now.distances state result }
{
    let distances = &measured.distances;
    for byte in 0..255u8 {
        let to = measured.table.accept(state, byte);
        if distances[to] < distances[state] {
            return byte;
        }
    }
    255
}

// Writes the first string that leads from a state to acceptance, from `at` on. Returns where it ends.
pub fn write_tail(measured: &Measured, state: usize, out: &mut [u8], at: usize) -> usize
    requires { IsMeasured measured.now × (state < states measured.now.table.bytes.now)
        × (get_or measured.now.distances state 0 < 64) × (at + get_or measured.now.distances state 0 ≤ length out.old) }
    ensures value { result ≡ at + get_or measured.now.distances state 0 }
    ensures tail { TailPut measured.now.table.bytes.now state at out.old out.new }
{
    let end = at + usize::from(measured.distances[state]);
    let mut s = state;
    for place in &mut out[at..end] {
        *place = nearer(measured, s);
        s = measured.table.accept(s, *place);
    }
    end
}
