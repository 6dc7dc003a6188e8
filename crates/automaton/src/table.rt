// The table: its check, the start state, one step, acceptance.
ghost use Rattle.std.specs.Prelude.{◌≡◌, ℕ, ◌<◌, length, get_or, IfOk};
ghost use Rattle.layout.specs.Refusals.{no_of};
ghost use Rattle.automaton.specs.Bits.{Exactly};
ghost use Rattle.automaton.specs.Table.{table_no, WellFormed, states, flag, next, any_from};

use layout::refusals::Refusal;

// Whether some byte is at or above the bound. It looks at all of them, byte against byte, so that the loop takes many at once:
// `any` would stop at the first.
fn any_from(bytes: &[u8], bound: u8) -> bool
    ensures { result ≡ any_from bound bytes.now }
{
    let mut found = false;
    for byte in bytes {
        found |= *byte >= bound;
    }
    found
}

// The bytes of a table that keeps the rules. That a state is one of the table's stands in the clauses of what takes it: a type
// that says so would hold the table beside each state, and walks keep states as bytes and as bits.
#[derive(Clone, Copy)]
pub struct Table<'a> {
    pub bytes: &'a [u8],
    pub ghost well_formed: { WellFormed bytes.now },
}

impl<'a> Table<'a> {
    // The table, or the rule that its bytes break.
    pub fn check(bytes: &'a [u8]) -> Result<Table<'a>, Refusal>
        ensures number { no_of result ≡ table_no bytes.now }
        ensures bytes { IfOk result (λ t. t.bytes.now ≡ bytes.now) }
    {
        let m = *bytes.first().ok_or(Refusal::TableBad)?;
        let rows = 1 + usize::from(m);
        if !(1..=64).contains(&m) || bytes.len() != 1 + 257 * usize::from(m) {
            return Err(Refusal::TableBad);
        }
        if any_from(&bytes[1..rows], 2) {
            return Err(Refusal::FlagBad);
        }
        if any_from(&bytes[rows..], m) {
            return Err(Refusal::StateBad);
        }
        Ok(Table { bytes })
    }

    // How many states there are.
    pub fn states(self) -> usize
        ensures { result ≡ states self.entry.bytes.now }
    {
        usize::from(self.bytes[0])
    }

    // The 256 next states of a state.
    pub fn row(self, state: usize) -> &'a [u8]
        requires { state < states self.bytes.now }
        ensures row_len { length result.now ≡ 256 }
        ensures by_index { (b : ℕ) → b < 256 → get_or result.now b 0 ≡ next self.entry.bytes.now state b }
    {
        let from = 1 + self.states() + state * 256;
        &self.bytes[from..from + 256]
    }

    // The state after one byte.
    pub fn accept(self, state: usize, byte: u8) -> usize
        requires { state < states self.bytes.now }
        ensures { (result ≡ next self.entry.bytes.now state byte) × (result < states self.entry.bytes.now) }
    {
        usize::from(self.row(state)[usize::from(byte)])
    }

    // Whether a state accepts.
    pub fn is_match(self, state: usize) -> bool
        requires { state < states self.bytes.now }
        ensures { Exactly result (flag self.entry.bytes.now state ≡ 1) }
    {
        self.bytes[1 + state] == 1
    }
}
