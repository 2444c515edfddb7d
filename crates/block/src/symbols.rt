// Runs of symbol indexes, one a byte: soft-clipped bases, and the bases of an unaligned block.
ghost use Rattle.std.specs.Prelude.{◌≡◌};
ghost use Rattle.block.specs.Symbols.{symbol_run};

use frame::field::Cursor;
use refusal::Refusal;

// So many symbols from a place on: each is refused when it is complete. Answers their number and the place behind them.
pub(crate) fn read_symbols(
    frame: &[u8],
    alphabet: u32,
    count: u32,
    c: Cursor,
) -> Result<(u32, Cursor), Refusal>
    ensures { result ≡ symbol_run alphabet frame.now count c.at }
{
    let size = alphabet::size(alphabet);
    let mut at = c.at;
    for _ in 0..count {
        let Some(&symbol) = frame.get(at) else {
            return Err(Refusal::Misframed);
        };
        if size <= u32::from(symbol) {
            return Err(Refusal::SymbolOut);
        }
        at += 1;
    }
    Ok((count, Cursor { at }))
}
