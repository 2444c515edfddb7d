// Lines of a listing that are not a record's, written at the front of what is lent. Each call answers the line's bytes, its 0A among them.
ghost use Rattle.std.specs.Prelude.{◌≡◌, [], ◌∷◌};
ghost use Rattle.listing.specs.Listing.{frame05, frame06};
ghost use Rattle.lampbuckle.specs.Answer.{outcome};
ghost use Rattle.lampbuckle.specs.Write.{written_call, unit_written};

use crate::answer::{answered, refused};
use crate::numbers;
use front::unit_line;
use listing::close;
use refusal::Refusal;

// The unit line again.
#[unsafe(no_mangle)]
pub extern "C" fn lampbuckle_write_unit(unit: &[u32], out: &mut [u8]) -> i64
    ensures { outcome result (out.new ∷ []) ≡ unit_written unit.now out.old }
{
    if unit.len() != numbers::UNIT {
        return refused(Refusal::UnitOut);
    }
    let u = numbers::read_unit(unit);
    if let Err(refusal) = u.check() {
        return refused(refusal);
    }
    answered(unit_line::write(out, u))
}

// The 05 line of a refusal.
#[unsafe(no_mangle)]
pub extern "C" fn lampbuckle_write_refused(number: u32, refusal: u32, out: &mut [u8]) -> i64
    ensures { outcome result (out.new ∷ []) ≡ written_call (frame05 number refusal) out.old }
{
    answered(close::write_refused(out, number, refusal))
}

// The 06 line of a listing that is whole.
#[unsafe(no_mangle)]
pub extern "C" fn lampbuckle_write_done(count: u32, out: &mut [u8]) -> i64
    ensures { outcome result (out.new ∷ []) ≡ written_call (frame06 count) out.old }
{
    answered(close::write_done(out, count))
}
