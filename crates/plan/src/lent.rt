// What a caller lends, before the line is looked at: refusals 3, 2, 4 and 14, in this order.
ghost use Rattle.std.specs.Prelude.{◌≡◌, length};
ghost use Rattle.plan.specs.Lent.{counts_out, state_refusal, lent_refusal};

use refusal::Refusal;
use state::State;
use unit::{Pairs, Unit};

// Whether a count is above its limit.
fn counts_out(counts: &[u32]) -> bool
    ensures { result ≡ counts_out counts.now }
{
    counts.iter().any(|&count| Pairs::SYMBOLS < count)
}

// What is refused before the line is looked at.
pub fn check(
    unit: Unit,
    reference: &[u8],
    symbols: &[u32],
    counts: &[u32],
    state: State,
) -> Result<(), Refusal>
    ensures { result ≡ lent_refusal unit (length reference.now) (length symbols.now) counts.now state }
{
    unit.check()?;
    if Unit::REFERENCE < reference.len() {
        return Err(Refusal::Misframed);
    }
    if symbols.len() != Pairs::TABLE {
        return Err(Refusal::CountOut);
    }
    if counts.len() != Pairs::SUBSEQUENCES {
        return Err(Refusal::CountOut);
    }
    if counts_out(counts) {
        return Err(Refusal::CountOut);
    }
    check_state(unit, counts, state)
}

// Refusal 14 where the state is not one of this unit and these counts.
fn check_state(unit: Unit, counts: &[u32], state: State) -> Result<(), Refusal>
    ensures { result ≡ state_refusal unit counts.now state }
{
    if unit.records <= state.number {
        return Err(Refusal::Missing);
    }
    if !state.within(counts) {
        return Err(Refusal::Missing);
    }
    Ok(())
}
