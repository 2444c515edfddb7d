// Where an aligned segment stands in its unit.
ghost use Rattle.std.specs.Prelude.{◌≡◌};
ghost use Rattle.pieces.specs.Place.{place_refusal};

use refusal::Refusal;
use unit::Unit;

// Refusal 13 where a segment's position, or the last reference position that it takes, lies outside the unit.
// A position may lie past 32 bits: it is the first segment's and a delta, and is never wrapped.
pub fn check(unit: Unit, position: u64, taken: u32) -> Result<(), Refusal>
    ensures { result ≡ place_refusal unit.start unit.end position taken }
{
    let start = unit.start as u64;
    let end = unit.end as u64;
    if position < start {
        return Err(Refusal::PositionOut);
    }
    if end < position {
        return Err(Refusal::PositionOut);
    }
    if end + 1 < position + taken as u64 {
        return Err(Refusal::PositionOut);
    }
    Ok(())
}
