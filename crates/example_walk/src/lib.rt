// The first accepted string between two keys. The interval falls into classes, one behind the other in byte order: the strings that
// leave the start key at a place, a later place before an earlier one; those between the keys at the first byte that differs; then,
// place by place, those that leave the end key, and its front alone.
#![tactic(auto)]

ghost use Rattle.std.specs.Prelude.{◌≡◌, ℕ, List, [], ◌∷◌, ◌++◌, ◌+◌, ◌^◌, ◌≤◌, ◌<◌, max, length, take, get_or};
ghost use Rattle.automaton.specs.Table.{states};
ghost use Rattle.automaton.specs.Words.{run};
ghost use Rattle.example_distance.specs.Measured.{IsMeasured};
ghost use Rattle.example_leaving.specs.Leaving.{FirstBetween};
ghost use Rattle.example_walk.specs.Walk.{low_edge, high_edge, BestBetween, Reached, Covers};

use example_distance::Measured;
use example_leaving::Leaving;
use pruning::block_match_automaton::accept_prefix;

// The best string so far, and for each state the bytes that were looked at: those below one and those from another on. A string that
// leaves a key by one of them at a later place is longer than the best, so that each byte of a state is looked at once, however
// long the keys are.
#[derive(Drop)]
pub struct Walk<'a> {
    pub best: Leaving<'a>,
    pub passed_below: [u16; 64],
    pub passed_from: [u16; 64],
}

impl<'a> Walk<'a> {
    // No byte of any state was looked at.
    fn new(best: Leaving<'a>) -> Walk<'a>
        ensures covers { (t d : List ℕ) (k : ℕ) → states t ≤ 64 → Covers t d k result }
        ensures best { result.best ≡ best.entry }
    {
        Walk {
            best,
            passed_below: [0; 64],
            passed_from: [256; 64],
        }
    }

    // Looks at the strings that leave the start key at the place by a byte from lo on. They lie below the best one, which of two
    // equally long ones gives way.
    fn look_below(
        &mut self,
        measured: &Measured,
        key: &'a [u8],
        place: usize,
        state: usize,
        lo: usize,
    )
        requires measured { IsMeasured measured.now × (state < states measured.now.table.bytes.now)
            × (state ≡ run measured.now.table.bytes.now 0 (take place key.now)) }
        requires place_in_bounds { (place ≤ length key.now) × (length key.now + 64 < 2 ^ 64) × (lo ≤ 256) }
        requires covers { Covers measured.now.table.bytes.now measured.now.distances place self.old }
        ensures looked { (b : List ℕ)
            → BestBetween measured.now.table.bytes.now measured.now.distances (take place key.now ++ (256 ∷ [])) b self.old
            → BestBetween measured.now.table.bytes.now measured.now.distances (take place key.now ++ (lo ∷ [])) b self.new }
        ensures covers { Covers measured.now.table.bytes.now measured.now.distances (place + 1) self.new }
    {
        let nearest = usize::from(measured.distances[state].saturating_sub(1));
        if place + nearest > self.best.last {
            return;
        }
        let to = usize::from(self.passed_from[state]);
        if to <= lo {
            return;
        }
        let from = lo.max(usize::from(self.passed_below[state]));
        let found = Leaving::first_at(measured, key, place, state, from, to);
        if found.last <= self.best.last {
            self.best = found;
        }
        self.passed_from[state] = lo as u16;
    }

    // Looks at the strings that leave the end key at the place by a byte below hi. They lie above the best one, which of two equally
    // long ones stays.
    fn look_above(
        &mut self,
        measured: &Measured,
        key: &'a [u8],
        place: usize,
        state: usize,
        hi: usize,
    )
        requires measured { IsMeasured measured.now × (state < states measured.now.table.bytes.now)
            × (state ≡ run measured.now.table.bytes.now 0 (take place key.now)) }
        requires place_in_bounds { (place ≤ length key.now) × (length key.now + 64 < 2 ^ 64) × (hi ≤ 256) }
        requires covers { Covers measured.now.table.bytes.now measured.now.distances (place + 1) self.old }
        ensures looked { (a : List ℕ)
            → BestBetween measured.now.table.bytes.now measured.now.distances a (take place key.now ++ (0 ∷ [])) self.old
            → BestBetween measured.now.table.bytes.now measured.now.distances a (take place key.now ++ (hi ∷ [])) self.new }
        ensures covers { Covers measured.now.table.bytes.now measured.now.distances (place + 1) self.new }
    {
        let nearest = usize::from(measured.distances[state].saturating_sub(1));
        if place + nearest >= self.best.last {
            return;
        }
        let from = usize::from(self.passed_below[state]);
        if hi <= from {
            return;
        }
        let to = hi.min(usize::from(self.passed_from[state]));
        let found = Leaving::first_at(measured, key, place, state, from, to);
        if found.last < self.best.last {
            self.best = found;
        }
        self.passed_below[state] = hi as u16;
    }

    // Looks at the end key's front with the byte at the place, alone. Returns the state behind it.
    fn look_at_front(
        &mut self,
        measured: &Measured,
        key: &'a [u8],
        place: usize,
        state: usize,
    ) -> usize
        requires measured { IsMeasured measured.now × (state < states measured.now.table.bytes.now)
            × (state ≡ run measured.now.table.bytes.now 0 (take place key.now)) }
        requires place_in_bounds { (place < length key.now) × (length key.now + 64 < 2 ^ 64) }
        ensures reached { Reached measured.now.table.bytes.now key.now (place + 1) result }
        ensures looked { (a : List ℕ)
            → BestBetween measured.now.table.bytes.now measured.now.distances a (take (place + 1) key.now) self.old
            → BestBetween measured.now.table.bytes.now measured.now.distances a (high_edge key.now (place + 1)) self.new }
        ensures covers { (k : ℕ) → Covers measured.now.table.bytes.now measured.now.distances k self.old
            → Covers measured.now.table.bytes.now measured.now.distances k self.new }
    {
        let byte = key[place];
        let to = measured.table.accept(state, byte);
        if measured.distances[to] == 0 && place < self.best.last {
            self.best = Leaving {
                key,
                place,
                byte,
                state: to,
                last: place,
            };
        }
        to
    }

    // One place along the start key. Returns the state behind its byte.
    fn along_start(
        &mut self,
        measured: &Measured,
        key: &'a [u8],
        place: usize,
        state: usize,
    ) -> usize
        requires measured { IsMeasured measured.now × Reached measured.now.table.bytes.now key.now place state }
        requires key_len { length key.now + 64 < 2 ^ 64 }
        requires covers { Covers measured.now.table.bytes.now measured.now.distances place self.old }
        ensures reached { Reached measured.now.table.bytes.now key.now (place + 1) result }
        ensures looked { (b : List ℕ) → BestBetween measured.now.table.bytes.now measured.now.distances (low_edge key.now place) b self.old
            → BestBetween measured.now.table.bytes.now measured.now.distances (low_edge key.now (place + 1)) b self.new }
        ensures covers { Covers measured.now.table.bytes.now measured.now.distances (place + 1) self.new }
    {
        if place < key.len() {
            self.look_below(measured, key, place, state, usize::from(key[place]) + 1);
            return measured.table.accept(state, key[place]);
        }
        if place == key.len() {
            self.look_below(measured, key, place, state, 0);
        }
        state
    }

    // One place along the end key. Returns the state behind its byte.
    fn along_end(&mut self, measured: &Measured, key: &'a [u8], place: usize, state: usize) -> usize
        requires measured { IsMeasured measured.now × Reached measured.now.table.bytes.now key.now place state }
        requires key_len { length key.now + 64 < 2 ^ 64 }
        requires covers { Covers measured.now.table.bytes.now measured.now.distances (place + 1) self.old }
        ensures reached { Reached measured.now.table.bytes.now key.now (place + 1) result }
        ensures looked { (a : List ℕ) → BestBetween measured.now.table.bytes.now measured.now.distances a (high_edge key.now place) self.old
            → BestBetween measured.now.table.bytes.now measured.now.distances a (high_edge key.now (place + 1)) self.new }
        ensures covers { Covers measured.now.table.bytes.now measured.now.distances (place + 1) self.new }
    {
        if place >= key.len() {
            return state;
        }
        self.look_above(measured, key, place, state, usize::from(key[place]));
        self.look_at_front(measured, key, place, state)
    }
}

// The lowest byte by which strings above the start key leave it at the place, in the state, and the state behind the key's own byte.
// Behind the key each byte leads above it.
fn beside_start(measured: &Measured, key: &[u8], place: usize, state: usize) -> (usize, usize)
    requires { (state < states measured.now.table.bytes.now) × (state ≡ run measured.now.table.bytes.now 0 (take place key.now)) }
    ensures inside { place < length key.now → result.0 ≡ get_or key.now place 0 + 1 }
    ensures behind { length key.now ≤ place → result.0 ≡ 0 }
    ensures reached { Reached measured.now.table.bytes.now key.now (place + 1) result.1 }
{
    if place >= key.len() {
        return (0, state);
    }
    (
        usize::from(key[place]) + 1,
        measured.table.accept(state, key[place]),
    )
}

// The first accepted string above the start key and not above the end key.
pub fn first_between<'a>(measured: &Measured, start_key: &'a [u8], end_key: &'a [u8]) -> Leaving<'a>
    requires { IsMeasured measured.now × (max (length start_key.now) (length end_key.now) + 64 < 2 ^ 64) }
    ensures { FirstBetween measured.now.table.bytes.now measured.now.distances
        (start_key.now ++ (0 ∷ [])) (end_key.now ++ (0 ∷ [])) result }
{
    let n = keys::common_prefix_len(start_key, end_key);
    if n == end_key.len() {
        return Leaving::none(end_key);
    }
    let base = accept_prefix(measured.table, &end_key[..n]);
    let (lo, mut low) = beside_start(measured, start_key, n, base);
    let hi = usize::from(end_key[n]);
    if hi < lo {
        return Leaving::none(end_key);
    }
    let mut walk = Walk::new(Leaving::first_at(measured, end_key, n, base, lo, hi));
    let mut high = walk.look_at_front(measured, end_key, n, base);
    for place in n + 1..start_key.len().max(end_key.len()) + 1 {
        if walk.best.last < place {
            return walk.best;
        }
        low = walk.along_start(measured, start_key, place, low);
        high = walk.along_end(measured, end_key, place, high);
    }
    walk.best
}
