// The segments of a record: the head of an aligned block takes the block's symbols, and what stands behind it is read without the state.
// Each of the two segments makes its own call of `segment::read_aligned`, so that the state stays out of it (docs/BENCHMARK.md).
ghost use Rattle.std.specs.Prelude.{◌≡◌};
ghost use Rattle.taking.specs.Steps.{decode};
ghost use Rattle.plan.specs.Plan.{first_segment, second_segment, segment_moved};

use block::head;
use frame::field::Cursor;
use pairing::Link;
use refusal::Refusal;
use segment::Segment;
use state::State;
use unit::Unit;

// In class U no segment is aligned, and none takes a symbol.
pub(crate) fn first_segment(
    unit: Unit,
    reference: &[u8],
    symbols: &[u32],
    counts: &[u32],
    state: State,
    frame: &[u8],
    pos: u32,
    c: Cursor,
) -> Result<(Segment, Cursor, State), Refusal>
    ensures { result ≡ segment_moved (decode symbols.now counts.now state (first_segment unit reference.now symbols.now frame.now pos c.at)) }
{
    if unit.class == Unit::U {
        let (segment, next) = segment::read_unaligned(frame, unit, c)?;
        return Ok((segment, next, state));
    }
    let (head, behind) = head::read(frame, symbols, counts, state, unit.class, c)?;
    let (segment, next) = segment::read_aligned(
        frame,
        unit,
        reference,
        symbols,
        u64::from(pos),
        head,
    )?;
    Ok((segment, next, behind))
}

// In classes HM and U the second segment is not aligned, and takes no symbol.
pub(crate) fn second_segment(
    unit: Unit,
    reference: &[u8],
    symbols: &[u32],
    counts: &[u32],
    state: State,
    frame: &[u8],
    link: Link,
    pos: u32,
    c: Cursor,
) -> Result<(Segment, Cursor, State), Refusal>
    ensures { result ≡ segment_moved (decode symbols.now counts.now state (second_segment unit reference.now symbols.now frame.now link pos c.at)) }
{
    if Unit::HM <= unit.class {
        let (segment, next) = segment::read_unaligned(frame, unit, c)?;
        return Ok((segment, next, state));
    }
    let (head, behind) = head::read(frame, symbols, counts, state, unit.class, c)?;
    let position = link.mate_position(pos);
    let (segment, next) = segment::read_aligned(frame, unit, reference, symbols, position, head)?;
    Ok((segment, next, behind))
}
