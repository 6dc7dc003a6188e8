// The same lines in a lent area, for a caller that must not fail: `Display` fails where its writer does.
ghost use Rattle.std.specs.Prelude.{◌≡◌, [], ◌∷◌, ◌+◌, ◌≤◌, length};
ghost use Rattle.std.proofs.lemmas.List.Edits.{sets};
ghost use Rattle.layout.specs.Refusals.{number_of};
ghost use Rattle.line_text.specs.Lines.{decimal, separator_text, line_of, refused_line, too_long_line};

use crate::{Line, Refused};

// Copies a part to the place `at`. Returns where the next part goes, as each of these does. Output and place stay two: a part is written
// at a place of the caller's area, and the clauses speak of all of that area.
fn put(part: &[u8], out: &mut [u8], at: usize) -> usize
    requires { at + length part.now ≤ length out.old }
    ensures { (result ≡ at + length part.now) × (out.new ≡ sets out.old at part.now) }
{
    let end = at + part.len();
    out[at..end].copy_from_slice(part);
    end
}

fn put_number(n: u64, out: &mut [u8], at: usize) -> usize
    requires { at + length (decimal n) ≤ length out.old }
    ensures { (result ≡ at + length (decimal n)) × (out.new ≡ sets out.old at (decimal n)) }
{
    put(itoa::Buffer::new().format(n).as_bytes(), out, at)
}

// A space, and a number behind it.
fn put_next(n: u64, out: &mut [u8], at: usize) -> usize
    requires { at + length (32 ∷ decimal n) ≤ length out.old }
    ensures { (result ≡ at + length (32 ∷ decimal n)) × (out.new ≡ sets out.old at (32 ∷ decimal n)) }
{
    let next = put(b" ", out, at);
    put_number(n, out, next)
}

// A space, and a separator behind it.
fn put_separator(bytes: &[u8], out: &mut [u8], at: usize) -> usize
    requires { at + length (32 ∷ separator_text bytes.now) ≤ length out.old }
    ensures { (result ≡ at + length (32 ∷ separator_text bytes.now)) × (out.new ≡ sets out.old at (32 ∷ separator_text bytes.now)) }
{
    let next = put(b" ", out, at);
    if bytes.is_empty() {
        return put(b"-", out, next);
    }
    let end = next + 2 * bytes.len();
    hex::encode_to_slice(bytes, &mut out[next..end]).unwrap();
    end
}

impl Line<'_> {
    // Writes the line to the front of `out`. Returns its length.
    pub fn put(&self, out: &mut [u8]) -> usize
        requires { length (line_of self.now.id self.now.block self.now.separator.bytes.now) ≤ length out.old }
        ensures { (result ≡ length (line_of self.now.id self.now.block self.now.separator.bytes.now))
            × (out.new ≡ sets out.old 0 (line_of self.now.id self.now.block self.now.separator.bytes.now)) }
    {
        let mut at = put_number(self.id as u64, out, 0);
        at = put_next(self.block.start, out, at);
        at = put_next(self.block.end, out, at);
        at = put_next(self.block.first_ordinal, out, at);
        at = put_separator(self.separator.bytes, out, at);
        put(b"\n", out, at)
    }
}

// Writes the line of an index that is refused by this row to the front of `out`. Returns its length.
pub fn put_refusal(row: u32, out: &mut [u8]) -> usize
    requires { length (refused_line row) ≤ length out.old }
    ensures { (result ≡ length (refused_line row)) × (out.new ≡ sets out.old 0 (refused_line row)) }
{
    let next = put(b"refused ", out, 0);
    let end = put_number(u64::from(row), out, next);
    put(b"\n", out, end)
}

impl Refused {
    // Writes the line to the front of `out`. Returns its length.
    pub fn put(&self, out: &mut [u8]) -> usize
        requires { length (refused_line (number_of self.now.refusal)) ≤ length out.old }
        ensures { (result ≡ length (refused_line (number_of self.now.refusal)))
            × (out.new ≡ sets out.old 0 (refused_line (number_of self.now.refusal))) }
    {
        put_refusal(u32::from(self.refusal), out)
    }
}

// Writes the line of an input that is too long to the front of `out`. Returns its length.
pub fn put_too_long(out: &mut [u8]) -> usize
    requires { length too_long_line ≤ length out.old }
    ensures { (result ≡ length too_long_line) × (out.new ≡ sets out.old 0 too_long_line) }
{
    put(b"too long\n", out, 0)
}
