// What the program `blocks` prints: a line per block of an index, or one line that says why there is none.
#![tactic(auto)]

pub mod text;

ghost use Rattle.std.specs.Prelude.{◌≡◌, ◌≤◌, ◌<◌, length};
ghost use Rattle.group.specs.Legal.{NumbersOk};
ghost use Rattle.line_text.specs.Lines.{line_of, line_len};
ghost use Rattle.index.specs.Opening.{load_least_def, Opens};
ghost use Rattle.block_lines.specs.Opened.{opened_block};
ghost use Rattle.block_lines.specs.Text.{read_version, line_at, blocks_pieces, IsPiece};
ghost use Rattle.block_lines.specs.Pieces.{piece_text};

use group::BlockAddr;
use index::SSTableIndexV3;
use layout::refusals::Refusal;
use line_text::{Line, Refused, Separator};
use text::Piece;

// No line of an index is longer: an id of 5 digits, three numbers of 17, a key of 1,024 bytes, five signs between and behind.
pub const LINE_LEN: usize = 2109;

// A longer input isn't taken.
pub const MAX_LEN: usize = 65536;

// The address of a block of an opened index. Record and bytes come apart, as index_load answers them: a struct of both would be made
// anew from `loaded` for each piece. `block` and `line` ask that they belong together.
fn block(opened: SSTableIndexV3, data: &[u8], id: usize) -> BlockAddr
    requires { Opens «data».now opened × (id < opened.n) }
    ensures { (result ≡ opened_block opened «data».now id) × NumbersOk result }
{
    index_lookup::get_block(opened, data, id as u64).unwrap()
}

// The line of a block of an opened index.
pub fn line(opened: SSTableIndexV3, data: &[u8], id: usize) -> Line
    requires { Opens «data».now opened × (id < opened.n) }
    ensures same { line_of result.id result.block result.separator.bytes.now ≡ line_at opened «data».now id }
    ensures short { length (line_of result.id result.block result.separator.bytes.now) ≤ line_len }
{
    let block = block(opened, data, id);
    let bytes = index_lookup::separator(opened, data, id as u64);
    Line {
        id,
        block,
        separator: Separator { bytes },
    }
}

// How many pieces the text has for these bytes, of which `loaded` is what opening with version 3 and the least number of terms answers.
pub fn pieces(loaded: Result<SSTableIndexV3, Refusal>, data: &[u8]) -> usize
    requires { loaded ≡ load_least_def read_version «data».now }
    ensures { result ≡ length (blocks_pieces «data».now) }
{
    if data.len() > MAX_LEN {
        return 1;
    }
    loaded.map_or(1, |opened| opened.n)
}

// Piece i of the text.
pub fn piece(loaded: Result<SSTableIndexV3, Refusal>, data: &[u8], i: usize) -> Piece
    requires { (loaded ≡ load_least_def read_version «data».now) × (i < length (blocks_pieces «data».now)) }
    ensures { IsPiece «data».now i (piece_text result) }
{
    if data.len() > MAX_LEN {
        return Piece::TooLong;
    }
    // A match: `line` asks that the record is the bytes' own, which a closure would owe for any.
    match loaded {
        Ok(opened) => Piece::Block(line(opened, data, i)),
        Err(refusal) => Piece::Refused(Refused { refusal }),
    }
}
