// The frame of a line, decoded once into bytes that the call owns. An array is cleared when it is made, so there are three sizes of it, by the line's length. The memory is fixed: no Vec has just so many bytes, and a size has to be a constant.
ghost use Rattle.std.specs.Prelude.{◌≡◌, [], ◌∷◌, ℕ, ◌≤◌, length, Ok};
ghost use Rattle.frame.specs.Hex.{unhex};
ghost use Rattle.frame.specs.Line.{line_of};
ghost use Rattle.refusal.specs.Answers.{no_refusal};
ghost use Rattle.plan.specs.Lent.{lent_refusal};
ghost use Rattle.record.specs.Record.{recorded, output, with_room};
ghost use Rattle.record.specs.Code.Frame.{read_step, short_frame, middle_frame, long_frame};

use crate::{Recorded, of_frame};
use frame::bytes::decode;
use frame::line::Line;
use state::State;
use unit::Unit;

// The bytes of the arrays: most reads with few edits fit into the first, and the longest line's frame into the last.
const SHORT: usize = 64;

const MIDDLE: usize = 512;

const LONG: usize = Line::DIGITS / 2;

// Each is its name in specs/: proved, and called by nothing.
fn tied() -> [usize; 3]
    ensures { result ≡ short_frame ∷ middle_frame ∷ long_frame ∷ [] }
{
    [SHORT, MIDDLE, LONG]
}

// A well-formed line, its frame decoded at the front of bytes that are lent for it.
fn within(
    unit: Unit,
    reference: &[u8],
    symbols: &[u32],
    counts: &[u32],
    state: State,
    line: &[u8],
    own: &mut [u8],
    out: &mut [u8],
) -> Recorded
    requires state_value { lent_refusal unit (length reference.now) (length symbols.now) counts.now state ≡ no_refusal }
    requires by_index { (size : ℕ) × ((line_of line.now ≡ Ok size) × (size ≤ length own.old)) }
    ensures value { result ≡ recorded state (with_room (length out.old) (read_step unit reference.now symbols.now counts.now state (unhex line.now))) }
    ensures out_after { out.new ≡ output out.old (with_room (length out.old) (read_step unit reference.now symbols.now counts.now state (unhex line.now))) }
{
    let n = line.len() / 2;
    decode(&mut own[..n], line);
    of_frame(unit, reference, symbols, counts, state, &own[..n], out)
}

// A well-formed line, whose frame has so many bytes.
pub(crate) fn of_line(
    unit: Unit,
    reference: &[u8],
    symbols: &[u32],
    counts: &[u32],
    state: State,
    line: &[u8],
    out: &mut [u8],
    size: usize,
) -> Recorded
    requires state_value { lent_refusal unit (length reference.now) (length symbols.now) counts.now state ≡ no_refusal }
    requires line_value { line_of line.now ≡ Ok size }
    ensures value { result ≡ recorded state (with_room (length out.old) (read_step unit reference.now symbols.now counts.now state (unhex line.now))) }
    ensures out_after { out.new ≡ output out.old (with_room (length out.old) (read_step unit reference.now symbols.now counts.now state (unhex line.now))) }
{
    if size <= SHORT {
        let mut own = [0u8; SHORT];
        return within(unit, reference, symbols, counts, state, line, &mut own, out);
    }
    if size <= MIDDLE {
        let mut own = [0u8; MIDDLE];
        return within(unit, reference, symbols, counts, state, line, &mut own, out);
    }
    let mut own = [0u8; LONG];
    within(unit, reference, symbols, counts, state, line, &mut own, out)
}
