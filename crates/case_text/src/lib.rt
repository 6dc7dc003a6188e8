// Lists of cases as text. One case a line: a kind letter, then tokens, each behind one space. A token that begins with `x` is a
// byte string in lower-case hex, any other a decimal number. A line that begins with `#` is a comment.
#![tactic(auto)]

ghost use Rattle.std.specs.Prelude.{◌≡◌, ◌≤◌, ◌<◌, ◌-◌, ◌^◌, true, [], length, take, drop};
ghost use Rattle.std.specs.Prelude.{IfOk, IfSome, MatchOption, get_or, slice_get, vec_len};
ghost use Rattle.std.specs.Option.{is_some};
ghost use Rattle.std.specs.Str.Parse.{digits_value};
ghost use Rattle.case_text.specs.Cases.{BeginsWith, Digits, FitsInto};

use std::alloc::{AllocError, Global};

// Where a byte string stands among the bytes of a line.
#[derive(Clone, Copy, Debug, Default)]
pub struct Span {
    pub from: usize,
    pub end: usize,
}

// What a line holds, in the order of its tokens: its numbers, and the bytes of its byte strings with the places of each, since
// they lie in lent areas, so that reading a line can't run out of memory. Most functions of the programs take its numbers and strings
// one by one, and so name what their kind of line holds.
#[derive(Clone, Copy, Debug)]
pub struct Case<'a> {
    pub kind: u8,
    pub numbers: &'a [u64],
    pub bytes: &'a [u8],
    pub spans: &'a [Span],
}

// A line: one that isn't of the form above is bad.
#[derive(Clone, Copy, Debug)]
pub enum Line<'a> {
    Comment,
    Case(Case<'a>),
    Bad,
}

impl<'a> Case<'a> {
    // Number k; 0 where there is none. Who wants an Option has the `get` of `numbers`.
    pub fn number(self, k: usize) -> u64
        ensures { result ≡ get_or self.entry.numbers.now k 0 }
    {
        self.numbers.get(k).copied().unwrap_or(0)
    }

    // Byte string k; the empty one where there is none, so that a program can take it before it asks how many the kind has.
    pub fn string(self, k: usize) -> &'a [u8]
        ensures { MatchOption (slice_get self.entry.spans.now k) (result.now ≡ [])
            (λ span. span.from ≤ span.end → span.end ≤ length self.entry.bytes.now
            → result.now ≡ take (span.end - span.from) (drop span.from self.entry.bytes.now)) }
    {
        self.spans
            .get(k)
            .and_then(|span| self.bytes.get(span.from..span.end))
            .unwrap_or(&[])
    }
}

// The decimal number that a token spells, if it is one of at most 2^64 - 1. std's parse takes a sign, too, and a text.
fn decimal(token: &[u8]) -> Option<u64>
    ensures value { IfSome result (λ n. Digits token.now × (n ≡ digits_value 10 token.now)) }
    ensures some { Digits token.now → digits_value 10 token.now < 2 ^ 64 → is_some result ≡ true }
{
    if token.is_empty() {
        return None;
    }
    let mut number: u64 = 0;
    for byte in token {
        if !byte.is_ascii_digit() {
            return None;
        }
        number = number
            .checked_mul(10)?
            .checked_add(u64::from(*byte - b'0'))?;
    }
    Some(number)
}

// Puts the bytes that hex digits spell, two each, to the front of the area. How many, if they are digits and have room.
fn put_bytes(digits: &[u8], area: &mut [u8]) -> Option<usize>
    ensures { (length area.new ≡ length area.old) × IfSome result (λ n. n ≤ length area.new) }
{
    // The crate hex takes upper case, too. With `any` the bytes would be looked at one by one.
    if digits
        .iter()
        .fold(false, |found, byte| found | byte.is_ascii_uppercase())
    {
        return None;
    }
    let len = digits.len() / 2;
    hex::decode_to_slice(digits, area.get_mut(..len)?).ok()?;
    Some(len)
}

// Reads a line, with or without the byte that ends it. Its numbers go to the front of `numbers`, the bytes of its byte strings and
// their places to the front of `bytes` and `spans`. A line that has more than fits there is bad. The areas are lent, so that reading
// a line can't run out of memory.
pub fn parse<'a>(
    line: &[u8],
    numbers: &'a mut [u64],
    bytes: &'a mut [u8],
    spans: &'a mut [Span],
) -> Line<'a>
    ensures kind { BeginsWith line.now result }
    ensures fits { FitsInto (length numbers.old) (length bytes.old) (length spans.old) result }
{
    let Some((kind, tokens)) = line.strip_suffix(b"\n").unwrap_or(line).split_first() else {
        return Line::Bad;
    };
    if *kind == b'#' {
        return Line::Comment;
    }
    if !kind.is_ascii_alphabetic() {
        return Line::Bad;
    }
    let Some(held) = take_tokens(tokens, numbers, bytes, spans) else {
        return Line::Bad;
    };
    Line::Case(Case {
        kind: *kind,
        numbers: &numbers[..held.numbers],
        bytes: &bytes[..held.bytes],
        spans: &spans[..held.strings],
    })
}

// How much of the areas the tokens so far fill: they are lent, and their lengths stay.
#[derive(Clone, Copy, Default)]
struct Held {
    numbers: usize,
    bytes: usize,
    strings: usize,
}

// Takes tokens, each behind a space, to the front of the areas, if all are good and have room.
fn take_tokens(
    tokens: &[u8],
    numbers: &mut [u64],
    bytes: &mut [u8],
    spans: &mut [Span],
) -> Option<Held>
    ensures lengths { (length numbers.new ≡ length numbers.old) × (length bytes.new ≡ length bytes.old)
        × (length spans.new ≡ length spans.old) }
    ensures held { IfSome result (λ held. (held.numbers ≤ length numbers.new) × (held.bytes ≤ length bytes.new)
        × (held.strings ≤ length spans.new)) }
{
    let mut held = Held::default();
    let Some((space, tokens)) = tokens.split_first() else {
        return Some(held);
    };
    if *space != b' ' {
        return None;
    }
    for token in tokens.split(|byte| *byte == b' ') {
        match token.strip_prefix(b"x") {
            Some(digits) => {
                let from = held.bytes;
                held.bytes += put_bytes(digits, &mut bytes[from..])?;
                *spans.get_mut(held.strings)? = Span {
                    from,
                    end: held.bytes,
                };
                held.strings += 1;
            }
            None => {
                *numbers.get_mut(held.numbers)? = decimal(token)?;
                held.numbers += 1;
            }
        }
    }
    Some(held)
}

// Areas for what one line of a list holds.
#[derive(Drop)]
pub struct Room {
    numbers: Vec<u64>,
    bytes: Vec<u8>,
    spans: Vec<Span>,
}

impl Room {
    // Room for so many numbers, byte strings, and bytes of these.
    pub fn new(
        alloc: Global,
        numbers: usize,
        strings: usize,
        bytes: usize,
    ) -> Result<Room, AllocError>
        ensures { IfOk result (λ room. (vec_len room.numbers ≡ numbers) × (vec_len room.spans ≡ strings)
            × (vec_len room.bytes ≡ bytes)) }
    {
        Ok(Room {
            numbers: vec![in alloc; 0u64; numbers]?,
            bytes: vec![in alloc; 0u8; bytes]?,
            spans: vec![in alloc; Span::default(); strings]?,
        })
    }

    // Reads a line.
    pub fn parse(&mut self, line: &[u8]) -> Line<'_>
        ensures { BeginsWith line.now result }
    {
        parse(line, &mut self.numbers, &mut self.bytes, &mut self.spans)
    }
}
