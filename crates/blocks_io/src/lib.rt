// What the program `blocks` does: it reads an index and prints a line for each block.
#![tactic(auto)]

ghost use Rattle.std.specs.Prelude.{OnOk};
ghost use Rattle.std.specs.Io.KnownBytes.{Appends};
ghost use Rattle.block_lines.specs.Text.{blocks_text};

use block_lines::{LINE_LEN, MAX_LEN};
use layout::versions::SSTABLE_INDEX_V3;
use std::io;
use std::io::{Read, Write};

// Writes the text for these bytes, piece by piece. A loop: `try_for_each` would take the writer into a closure of its own.
fn print<W: Write>(out: &mut W, data: &[u8]) -> io::Result<()>
    ensures { OnOk result (Appends (W.contents out.old) (W.contents out.new) (blocks_text «data».now)) }
{
    let loaded = index_load::load_least(SSTABLE_INDEX_V3, data);
    // A fixed area, so that a text can't end in its middle for want of memory.
    let mut text = [0u8; LINE_LEN];
    for i in 0..block_lines::pieces(loaded, data) {
        let len = block_lines::piece(loaded, data, i).put(&mut text);
        out.write_all(&text[..len])?;
    }
    Ok(())
}

// Reads standard input, writes standard output. The programs blocks.. are twins, kept: the gate runs each on one input.
pub fn run(rt: &(impl Input + Print + AllocGlobal)) -> io::Result<()> {
    // One byte more than is taken tells that the input is too long.
    let mut file = Vec::new(rt.alloc());
    rt.reader().take(MAX_LEN as u64 + 1).read_to_end(&mut file)?;
    print(&mut io::writer(rt), &file)
}
