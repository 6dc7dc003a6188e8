// What the programs that replay a list share: its text, a case from each line, and the count of the cases that differ.
ghost use Rattle.std.specs.Prelude.{◌≡◌, ◌≢◌, ◌≤◌, ◌<◌, ◌+◌, ◌-◌, ◌++◌, IfOk, IfSome, MatchOption, get_or, length, take, vec_len, ℕ};
ghost use Rattle.std.specs.Io.{ReadsAtMost};
ghost use Rattle.std.specs.Io.KnownBytes.{Consumes, IsAtEnd};

use case_text::{Case, Line, Room};
use std::alloc::{AllocError, Global};
use std::io;
use std::io::Read;
use vector_parts::tally::Tallies;

// One byte more than the longest text.
pub const TEXT_LEN: usize = 655360;

// A letter that lines begin with: the kind of these, the row of their tally, and how many byte strings they have. One without a
// row only sets something, and is counted where it differs. A row is its place in the list of names: several letters share one.
#[derive(Clone, Copy, Debug)]
pub struct Letter<K> {
    pub letter: u8,
    pub kind: K,
    pub row: Option<usize>,
    pub strings: usize,
}

// Reads until the area is full or the input ends, and returns how many bytes were read to the front of the area. std's read_to_end
// fills no lent area, and its read_exact doesn't say how many bytes came before the end.
pub fn fill<R: Read>(reader: &mut R, area: &mut [u8]) -> io::Result<usize>
    ensures bound { ReadsAtMost result area.new }
    ensures bytes { IfOk result (λ n. Consumes (R.remaining reader.old) (R.remaining reader.new) (take n area.new)) }
    ensures end { IfOk result (λ n. n < length area.new → IsAtEnd (R.remaining reader.new)) }
{
    let mut done = 0;
    // A read may give any part of what is asked for, so that no `for` can count the reads.
    while done < area.len() {
        let n = reader.read(&mut area[done..])?;
        if n == 0 {
            break;
        }
        done += n;
    }
    Ok(done)
}

// The first n bytes, if they don't fill the area.
fn text_in(area: &[u8], n: usize) -> Option<&[u8]>
    requires { n ≤ length area.now }
    ensures { IfSome result (λ text. length text.now < length area.now) }
{
    (n < area.len()).then_some(&area[..n])
}

// Reads the text to the front of the area. One that fills it is too long, and said to be. The area is lent, so that reading
// allocates nothing.
pub fn read<'a>(rt: &(impl Input + Print), area: &'a mut [u8]) -> io::Result<Option<&'a [u8]>>
    ensures { IfOk result (λ read. IfSome read (λ text. length text.now < length area.old)) }
{
    let n = fill(&mut rt.reader(), area)?;
    let text = text_in(area, n);
    if text.is_none() {
        println!(rt; "too long")?;
    }
    Ok(text)
}

// A line of these programs holds no more than so many numbers, byte strings, and bytes of these.
const MOST_NUMBERS: usize = 520;

const MOST_STRINGS: usize = 3;

const MOST_BYTES: usize = 8_192;

// What a line begins with.
fn letter_of<'a, K>(letters: &'a [Letter<K>], line: &[u8]) -> Option<&'a Letter<K>> {
    let first = *line.first()?;
    letters.iter().find(|letter| letter.letter == first)
}

// The kind of a case, if it has as many byte strings as its letter says.
fn fitting<K: Copy>(letter: Option<&Letter<K>>, case: Case<'_>) -> Option<K> {
    let letter = letter?;
    (letter.strings == case.spans.len()).then_some(letter.kind)
}

// The place of the first byte that ends a line.
fn line_end(text: &[u8]) -> Option<usize>
    ensures { MatchOption result ((k : ℕ) → k < length text.now → get_or text.now k 0 ≢ 10)
        (λ place. (place < length text.now) × ((k : ℕ) → k < place → get_or text.now k 0 ≢ 10) × (get_or text.now place 0 ≡ 10)) }
{
    text.iter().position(|byte| *byte == b'\n')
}

// The first line, with the byte that ends it, and the text behind it; nothing where there is no text. std's split_inclusive gets no
// proof beside a closure that is called each turn, unless its lines are collected first.
fn first_line(text: &[u8]) -> Option<(&[u8], &[u8])>
    ensures parts { MatchOption result (length text.now ≡ 0)
        (λ parts. (0 < length parts.0.now) × (parts.0.now ++ parts.1.now ≡ text.now)) }
    ensures inside { IfSome result (λ parts. (k : ℕ) → k + 1 < length parts.0.now → get_or parts.0.now k 0 ≢ 10) }
    ensures end { IfSome result (λ parts. 0 < length parts.1.now → get_or parts.0.now (length parts.0.now - 1) 0 ≡ 10) }
{
    let last = text.len().checked_sub(1)?;
    let end = line_end(text).unwrap_or(last);
    Some(text.split_at(end + 1))
}

// Counts the case of each line. A bad line differs, and so does one with another number of byte strings than its letter's.
pub fn compare<K: Copy, F: FnMut(K, Case<'_>) -> io::Result<bool>>(
    alloc: Global,
    text: &[u8],
    letters: &[Letter<K>],
    tallies: &mut Tallies,
    mut same: F,
) -> io::Result<()>
    requires { F.IsAlwaysCallable same }
    ensures { vec_len tallies.new.rows ≡ vec_len tallies.old.rows }
{
    let mut room = Room::new(alloc, MOST_NUMBERS, MOST_STRINGS, MOST_BYTES)?;
    let mut rest = text;
    while let Some((line, behind)) = first_line(rest) {
        rest = behind;
        let letter = letter_of(letters, line);
        let is_same = match room.parse(line) {
            Line::Comment => continue,
            Line::Bad => false,
            Line::Case(case) => match fitting(letter, case) {
                Some(kind) => same(kind, case)?,
                None => false,
            },
        };
        let row = letter.and_then(|letter| letter.row);
        if row.is_some() || !is_same {
            tallies.count(row, is_same);
        }
    }
    Ok(())
}

// Compares the cases of the text on the input, and prints for each row and for all cases how many were compared, and how many differ.
pub fn replay<K: Copy, F: FnMut(K, Case<'_>) -> io::Result<bool>>(
    rt: &(impl Input + Print + AllocGlobal),
    letters: &[Letter<K>],
    rows: &[&str],
    same: F,
) -> io::Result<()>
    requires { F.IsAlwaysCallable same }
{
    let mut area = vec![in rt.alloc(); 0u8; TEXT_LEN]?;
    if let Some(text) = read(rt, &mut area)? {
        let mut tallies = Tallies::new(rt.alloc(), rows)?;
        compare(rt.alloc(), text, letters, &mut tallies, same)?;
        tallies.print(rt)?;
    }
    Ok(())
}
