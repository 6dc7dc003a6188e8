// The pieces of the text that `blocks` prints, each a line.
ghost use Rattle.std.specs.Prelude.{Some, ◌≡◌, ◌≤◌, length};
ghost use Rattle.std.proofs.lemmas.List.Edits.{sets};
ghost use Rattle.block_lines.specs.Pieces.{piece_text};

use line_text::{Line, Refused};
use std::fmt;

#[derive(Clone, Copy, Debug)]
pub enum Piece<'a> {
    TooLong,
    Refused(Refused),
    Block(Line<'a>),
}

impl fmt::Display for Piece<'_> {
    ghost use Rattle.std.specs.Prelude.{Some};
    ghost use Rattle.block_lines.specs.Pieces.{piece_text};

    ghost output = { λ piece. Some (piece_text piece) };

    fn fmt<W: fmt::Write>(&self, f: &mut fmt::Formatter<W>) -> fmt::Result {
        match self {
            Piece::TooLong => write!(f, "too long\n"),
            Piece::Refused(refused) => write!(f, "{refused}"),
            Piece::Block(line) => write!(f, "{line}"),
        }
    }
}

impl Piece<'_> {
    // Puts the piece to the front of `out`, for which LINE_LEN bytes are enough. Returns its length.
    pub fn put(&self, out: &mut [u8]) -> usize
        requires { length (piece_text self.now) ≤ length out.old }
        ensures { (result ≡ length (piece_text self.now)) × (out.new ≡ sets out.old 0 (piece_text self.now)) }
    {
        match self {
            Piece::TooLong => line_text::put_too_long(out),
            Piece::Refused(refused) => refused.put(out),
            Piece::Block(line) => line.put(out),
        }
    }
}
