// An unaligned block: a read length and that many symbol indexes.
ghost use Rattle.std.specs.Prelude.{◌≡◌};
ghost use Rattle.block.specs.Unaligned.{unaligned_at};

use crate::checked::read_length;
use crate::symbols::read_symbols;
use frame::field::Cursor;
use refusal::Refusal;

// The read's length, the place of its symbols, and the place behind the block. Places and no slices, as in `Block`: `unaligned_at` (specs/) answers them.
#[derive(Clone, Copy)]
pub struct UnalignedBlock {
    pub length: u32,
    pub at: usize,
    pub next: Cursor,
}

pub fn read(frame: &[u8], alphabet: u32, c: Cursor) -> Result<UnalignedBlock, Refusal>
    ensures { result ≡ unaligned_at alphabet frame.now c.at }
{
    let (length, symbols) = read_length(frame, c)?;
    let (_, next) = read_symbols(frame, alphabet, length, symbols)?;
    Ok(UnalignedBlock {
        length,
        at: symbols.at,
        next,
    })
}
