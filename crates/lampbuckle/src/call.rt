// The record call: one record line in, one 04 line out.
ghost use Rattle.std.specs.Prelude.{◌≡◌, [], ◌∷◌};
ghost use Rattle.lampbuckle.specs.Answer.{outcome};
ghost use Rattle.lampbuckle.specs.Call.{record_call};

use crate::answer::{counted, refused};
use crate::numbers;
use refusal::Refusal;
use state::numbers as state_numbers;

// The next record of a unit: its 04 line at the front of what is lent, and the next state in the place of the one before. It answers the line's bytes.
#[unsafe(no_mangle)]
pub extern "C" fn lampbuckle_record(
    unit: &[u32],
    reference: &[u8],
    symbols: &[u32],
    counts: &[u32],
    state: &mut [u32],
    line: &[u8],
    out: &mut [u8],
) -> i64
    ensures { outcome result (state.new ∷ out.new ∷ []) ≡ record_call unit.now reference.now symbols.now counts.now state.old line.now out.old }
{
    if unit.len() != numbers::UNIT {
        return refused(Refusal::UnitOut);
    }
    let u = numbers::read_unit(unit);
    let before = state_numbers::read(&state[..]);
    let r = record::record(u, reference, symbols, counts, before, line, out);
    match r.answer {
        Err(refusal) => refused(refusal),
        Ok(n) => {
            state_numbers::lay(state, r.state);
            counted(n)
        }
    }
}
