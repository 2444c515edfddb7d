// The symbols of Table 62: taken for a block once its lengths are known, and refused one by one. Where the pieces map is looked up again when it is wanted.
ghost use Rattle.std.specs.Prelude.{◌≡◌};
ghost use Rattle.taking.specs.Steps.{decode};
ghost use Rattle.edits.specs.Pieces.{SignedPosition};
ghost use Rattle.splices.specs.Table62.{same_rec_short, same_rec_long, next_mapping_pos};
ghost use Rattle.splices.specs.Code.Taken.{symbols_moved, splice_turns};

use refusal::Refusal;
use state::State;
use taking::{take, take_narrow};

// Code 0: a signed distance from the end of the piece before.
fn take_short(symbols: &[u32], counts: &[u32], state: State) -> Result<State, Refusal>
    ensures { (end : SignedPosition) → result ≡ symbols_moved (decode symbols.now counts.now state (same_rec_short end)) }
{
    let (_, next) = take_narrow(symbols, counts, state, 1)?;
    Ok(next)
}

// Code 2: a position, on which Table 62 sets no limit.
fn take_long(symbols: &[u32], counts: &[u32], state: State) -> Result<State, Refusal>
    ensures { result ≡ symbols_moved (decode symbols.now counts.now state same_rec_long) }
{
    let (_, next) = take(symbols, counts, state, 3)?;
    Ok(next)
}

// The symbols of one piece: a code, and what it asks for. The numbers are those of Table 62, and each stands here alone: names, or a table of functions, say no more.
fn take_piece(symbols: &[u32], counts: &[u32], state: State) -> Result<State, Refusal>
    ensures { (end : SignedPosition) → result ≡ symbols_moved (decode symbols.now counts.now state (next_mapping_pos end)) }
{
    let (code, next) = take(symbols, counts, state, 0)?;
    match code {
        0 => take_short(symbols, counts, next),
        2 => take_long(symbols, counts, next),
        _ => Err(Refusal::CodeOut),
    }
}

// The state behind the symbols of so many pieces, those behind a read's first.
pub fn take_pieces(
    symbols: &[u32],
    counts: &[u32],
    state: State,
    pieces: u32,
) -> Result<State, Refusal>
    ensures { result ≡ symbols_moved (decode symbols.now counts.now state (splice_turns pieces)) }
{
    let mut here = state;
    for _ in 0..pieces {
        here = take_piece(symbols, counts, here)?;
    }
    Ok(here)
}
