// The lines of the program `blocks`. Each prints by `Display`, and is put into a lent area by `put`, which can't fail.
#![tactic(auto)]

pub mod put;

ghost use Rattle.std.specs.Prelude.{Some};
ghost use Rattle.layout.specs.Refusals.{number_of};
ghost use Rattle.line_text.specs.Lines.{separator_text, line_of, refused_line};

use group::BlockAddr;
use layout::refusals::Refusal;
pub use put::{put_refusal, put_too_long};
use std::fmt;

// A separator: its bytes in lower-case hex, or `-` where it is empty.
#[derive(Clone, Copy, Debug)]
pub struct Separator<'a> {
    pub bytes: &'a [u8],
}

// A block's line: its id, its two ends, its first ordinal and its separator.
#[derive(Clone, Copy, Debug)]
pub struct Line<'a> {
    pub id: usize,
    pub block: BlockAddr,
    pub separator: Separator<'a>,
}

// The line of an index that is refused, by the table's row.
#[derive(Clone, Copy, Debug)]
pub struct Refused {
    pub refusal: Refusal,
}

impl fmt::Display for Separator<'_> {
    ghost output = { λ separator. Some (separator_text separator.bytes.now) };

    fn fmt<W: fmt::Write>(&self, f: &mut fmt::Formatter<W>) -> fmt::Result {
        if self.bytes.is_empty() {
            return write!(f, "-");
        }
        for byte in self.bytes {
            let byte = *byte;
            write!(f, "{byte:02x}")?;
        }
        Ok(())
    }
}

impl fmt::Display for Line<'_> {
    ghost output = { λ line. Some (line_of line.id line.block line.separator.bytes.now) };

    fn fmt<W: fmt::Write>(&self, f: &mut fmt::Formatter<W>) -> fmt::Result {
        let id = self.id;
        let start = self.block.start;
        let end = self.block.end;
        let first_ordinal = self.block.first_ordinal;
        let separator = self.separator;
        write!(f, "{id} {start} {end} {first_ordinal} {separator}\n")
    }
}

impl fmt::Display for Refused {
    ghost output = { λ refused. Some (refused_line (number_of refused.refusal)) };

    fn fmt<W: fmt::Write>(&self, f: &mut fmt::Formatter<W>) -> fmt::Result {
        let row = u32::from(self.refusal);
        write!(f, "refused {row}\n")
    }
}
