// Taking symbols: the next one of a subsequence, and the state with its index one higher.
#![tactic(auto)]

ghost use Rattle.std.specs.Prelude.{◌≡◌};
ghost use Rattle.taking.specs.Take.{take_of, narrow_of};

use refusal::Refusal;
use state::State;
use unit::{Pairs, Unit};

// The next symbol of subsequence s and the state with its index one higher; 5 where it has none left.
pub fn take(
    symbols: &[u32],
    counts: &[u32],
    state: State,
    s: usize,
) -> Result<(u32, State), Refusal>
    ensures { result ≡ take_of symbols.now counts.now state s }
{
    if State::INDEXES <= s {
        return Err(Refusal::UsedUp);
    }
    if counts.len() <= s {
        return Err(Refusal::UsedUp);
    }
    let k = state.index[s];
    let n = counts[s];
    if n <= k {
        return Err(Refusal::UsedUp);
    }
    let at = s * Pairs::SYMBOLS as usize + k as usize;
    if symbols.len() <= at {
        return Err(Refusal::UsedUp);
    }
    let v = symbols[at];
    let mut next = state;
    next.index[s] = k + 1;
    Ok((v, next))
}

// The same of a value that must have at most 16 bits; 7 where it has more.
pub fn take_narrow(
    symbols: &[u32],
    counts: &[u32],
    state: State,
    s: usize,
) -> Result<(u32, State), Refusal>
    ensures { result ≡ narrow_of symbols.now counts.now state s }
{
    let (v, next) = take(symbols, counts, state, s)?;
    if Unit::LARGEST16 < v {
        return Err(Refusal::ValueOut);
    }
    Ok((v, next))
}
