// Automata as tables: the count of states, a flag for each, and the next states, row by row.
ghost use Rattle.std.specs.Prelude.{◌<◌, IfOk, IfSome};

use case_text::Case;
use std::alloc::{AllocError, Global};
use vector_parts::draws::Draws;

// No table is longer: 255 states and a byte.
const LONGEST: usize = 65537;

// How a line makes a table.
#[derive(Clone, Copy)]
pub enum Table {
    // Its bytes.
    Whole,
    // Flags, and next states as runs.
    Runs,
    // Flags, and next states by the rule.
    Rule,
    // Flags, and next states by the generator.
    Draws,
    // The old one with a part in place of its own.
    Part,
    // The front of the old one.
    Front,
}

// The front of a table with these flags, and how many states that are: its count, and the flags. None where there can't be so many.
fn front(alloc: Global, flags: &[u8]) -> Result<Option<(Vec<u8>, u8)>, AllocError>
    ensures { IfOk result (λ found. IfSome found (λ p. 0 < p.1)) }
{
    let Ok(count @ 1..) = u8::try_from(flags.len()) else {
        return Ok(None);
    };
    let mut table = vec![in alloc; count]?;
    table.extend_from_slice(flags)?;
    Ok(Some((table, count)))
}

// Appends next states as runs, as far as there is room: how many less one, and the state. False where they aren't those of m states.
fn put_runs(table: &mut Vec<u8>, m: u8, runs: &[u8]) -> Result<bool, AllocError> {
    let (runs, []) = runs.as_chunks::<2>() else {
        return Ok(false);
    };
    let len = table.len() + 256 * usize::from(m);
    for [more, state] in runs {
        let behind = table.len() + 1 + usize::from(*more);
        table.resize(behind.min(LONGEST), *state)?;
    }
    Ok(table.len() == len)
}

// The next state of s with byte b is (s * a + c + b / d) modulo the count of states.
fn put_rule(table: &mut Vec<u8>, m: u8, a: u16, c: u16, d: u64) -> Result<(), AllocError>
    requires { (0 < m) × (0 < d) }
{
    let m = u64::from(m);
    // A `for` over the states: one chain of all rows would be a flat_map of chains.
    for s in 0..m {
        let row = s * u64::from(a) + u64::from(c);
        table.extend((0..256).map(|b| ((row + b / d) % m) as u8))?;
    }
    Ok(())
}

// The next state that v draws among m: the last one for k draws of 256.
fn drawn(v: u64, m: u64, k: u64) -> u8
    requires { (0 < m) × (m < 256) }
{
    let next = if v % 256 < k { m - 1 } else { v / 256 % m };
    next as u8
}

// Next states by a generator from `seed` on. The last state stays.
fn put_draws(table: &mut Vec<u8>, m: u8, seed: u64, k: u64) -> Result<(), AllocError>
    requires { 0 < m }
{
    let m = u64::from(m);
    let mut draws = Draws::new(seed);
    table.extend((0..256 * (m - 1)).map(
        |_|
            requires { (0 < m) × (m < 256) }
        { drawn(draws.draw(), m, k) },
    ))?;
    table.resize(table.len() + 256, (m - 1) as u8)
}

// Puts a part in place of the table's own from `at` on, beyond its end too. False where there is no such place or no room.
fn put_part(table: &mut Vec<u8>, at: u64, part: &[u8]) -> Result<bool, AllocError> {
    let at = at as usize;
    if at > table.len() || part.len() > LONGEST.saturating_sub(at) {
        return Ok(false);
    }
    let end = at + part.len();
    if table.len() < end {
        table.resize(end, 0)?;
    }
    table[at..end].copy_from_slice(part);
    Ok(true)
}

impl Table {
    // Makes another table of this one. False where the line is bad.
    pub fn set(
        self,
        alloc: Global,
        case: Case<'_>,
        table: &mut Vec<u8>,
    ) -> Result<bool, AllocError> {
        let one = case.string(0);
        match (self, case.numbers) {
            (Table::Whole, []) => {
                *table = one.to_vec(alloc)?;
                Ok(true)
            }
            (Table::Part, [at]) => put_part(table, *at, one),
            (Table::Front, [len]) if *len <= table.len() as u64 => {
                table.truncate(*len as usize);
                Ok(true)
            }
            (Table::Runs | Table::Rule | Table::Draws, _) => self.set_by_flags(alloc, case, table),
            _ => Ok(false),
        }
    }

    // A new table with these flags. As far as a bad line makes one, it stands in place of the front of the old one.
    fn set_by_flags(
        self,
        alloc: Global,
        case: Case<'_>,
        table: &mut Vec<u8>,
    ) -> Result<bool, AllocError> {
        let Some((mut made, m)) = front(alloc, case.string(0))? else {
            return Ok(false);
        };
        if self.put_next(case, &mut made, m)? {
            *table = made;
            return Ok(true);
        }
        let len = made.len().min(table.len());
        table[..len].copy_from_slice(&made[..len]);
        Ok(false)
    }

    // Appends the next states of m states. False where the line is bad.
    fn put_next(self, case: Case<'_>, table: &mut Vec<u8>, m: u8) -> Result<bool, AllocError>
        requires { 0 < m }
    {
        match (self, case.numbers) {
            (Table::Runs, []) => put_runs(table, m, case.string(1)),
            (Table::Rule, [a @ ..=0xffff, c @ ..=0xffff, d @ 1..]) => {
                put_rule(table, m, *a as u16, *c as u16, *d)?;
                Ok(true)
            }
            (Table::Draws, [seed, k]) if *seed < 1 << 31 => {
                put_draws(table, m, *seed, *k)?;
                Ok(true)
            }
            _ => Ok(false),
        }
    }
}
