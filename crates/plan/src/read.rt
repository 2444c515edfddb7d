// What the frame of a record line says, read and checked whole before a byte is written.
ghost use Rattle.std.specs.Prelude.{◌≡◌};
ghost use Rattle.plan.specs.Plan.{plan, reading_by, from_kind, from_second};
ghost use Rattle.plan.specs.Code.Ended.{ended_at};
ghost use Rattle.taking.specs.Steps.{decode};

use crate::segments::{first_segment, second_segment};
use frame::field::Cursor;
use pairing::Link;
use refusal::Refusal;
use segment::Segment;
use state::State;
use unit::Unit;
use unit::kind::Kind;

// A record as it will be listed: its pair link, its position and its segments.
#[derive(Clone, Copy)]
pub struct Plan {
    pub link: Link,
    pub pos: u32,
    pub first: Segment,
    pub second: Segment,
}

// The kind, then the pair symbols as they are taken, the position, which is 0 in class U, and the blocks; and the state behind all their symbols.
pub fn read(
    unit: Unit,
    reference: &[u8],
    symbols: &[u32],
    counts: &[u32],
    state: State,
    frame: &[u8],
) -> Result<(Plan, State), Refusal>
    ensures { result ≡ from_kind unit reference.now symbols.now counts.now state frame.now }
{
    let head = reader::head::read(frame);
    let (kind, _) = head.kind?;
    if kind != Kind::RECORD {
        return Err(Refusal::Misframed);
    }
    let (link, behind) = pairing::pair(unit, symbols, counts, state)?;
    // The position's field, read with the kind, is looked at only now: the pair symbols come first.
    let (pos, next) = head.pos?;
    if unit.class == Unit::U {
        if pos != 0 {
            return Err(Refusal::PositionOut);
        }
    }
    let (first, next, behind) = first_segment(
        unit, reference, symbols, counts, behind, frame, pos, next,
    )?;
    from_second(
        unit, reference, symbols, counts, behind, frame, link, pos, first, next,
    )
}

// The second block, where the record has one. Nothing may be left over.
fn from_second(
    unit: Unit,
    reference: &[u8],
    symbols: &[u32],
    counts: &[u32],
    state: State,
    frame: &[u8],
    link: Link,
    pos: u32,
    first: Segment,
    c: Cursor,
) -> Result<(Plan, State), Refusal>
    ensures { result ≡ reading_by (decode symbols.now counts.now state (from_second unit reference.now symbols.now frame.now link pos first c.at)) }
{
    if link.segments < Unit::SEGMENTS {
        let plan = finish(frame, link, pos, first, Segment::Absent, c)?;
        return Ok((plan, state));
    }
    let (second, next, behind) = second_segment(
        unit, reference, symbols, counts, state, frame, link, pos, c,
    )?;
    let plan = finish(frame, link, pos, first, second, next)?;
    Ok((plan, behind))
}

// A record, behind which its frame ends.
fn finish(
    frame: &[u8],
    link: Link,
    pos: u32,
    first: Segment,
    second: Segment,
    c: Cursor,
) -> Result<Plan, Refusal>
    ensures { result ≡ ended_at frame.now (plan link pos first second) c.at }
{
    if c.at < frame.len() {
        return Err(Refusal::Misframed);
    }
    Ok(Plan {
        link,
        pos,
        first,
        second,
    })
}
