// The head of an aligned block: its first fields, and the symbols that they ask for. What stands behind it takes no symbol, and is read without the state.
ghost use Rattle.std.specs.Prelude.{◌≡◌, ℕ};
ghost use Rattle.taking.specs.Steps.{decode};
ghost use Rattle.block.specs.Head.{head_at, from_pieces, head_moved};

use crate::checked::{read_length, read_lengths, read_number, read_rcomp};
use frame::field::Cursor;
use refusal::Refusal;
use splices::Splices;
use splices::take::take_pieces;
use state::State;
use unit::Unit;

// Read length, rcomp, a number as in `Block`, and the pieces, and the place behind them.
#[derive(Clone, Copy)]
pub struct BlockHead {
    pub length: u32,
    pub rcomp: u32,
    pub splices: Splices,
    pub next: Cursor,
}

// A head, and the state behind the symbols that it takes. Wherever the read maps: neither the symbols that are taken nor their refusals depend on it.
pub fn read(
    frame: &[u8],
    symbols: &[u32],
    counts: &[u32],
    state: State,
    class: u32,
    c: Cursor,
) -> Result<(BlockHead, State), Refusal>
    ensures { (position : ℕ) → result ≡ head_moved (decode symbols.now counts.now state (head_at class frame.now position c.at)) }
{
    let (length, behind_length) = read_length(frame, c)?;
    let (rcomp, next) = read_rcomp(frame, class, behind_length)?;
    from_pieces(frame, symbols, counts, state, class, length, rcomp, next)
}

// Only classes I and HM have reads over introns. What is wrong with the lengths of the pieces is told before their symbols are taken; these stand from the state on.
fn from_pieces(
    frame: &[u8],
    symbols: &[u32],
    counts: &[u32],
    state: State,
    class: u32,
    length: u32,
    rcomp: u32,
    c: Cursor,
) -> Result<(BlockHead, State), Refusal>
    ensures { (position : ℕ) → result ≡ head_moved (decode symbols.now counts.now state (from_pieces class frame.now position length rcomp c.at)) }
{
    if class < Unit::I {
        let head = BlockHead {
            length,
            rcomp,
            splices: Splices::none(),
            next: c,
        };
        return Ok((head, state));
    }
    let (count, lengths) = read_number(frame, c)?;
    let (_, next) = read_lengths(frame, length, count, lengths)?;
    let behind = take_pieces(symbols, counts, state, count - 1)?;
    let index = state.index;
    let splices = Splices {
        lengths_at: lengths.at,
        count,
        codes: index[0],
        deltas: index[1],
        places: index[3],
    };
    let head = BlockHead {
        length,
        rcomp,
        splices,
        next,
    };
    Ok((head, behind))
}
