// A reference line: symbol indexes, laid behind those that the caller's reference has. The alphabet is not known yet, so that any byte is taken.
ghost use Rattle.std.specs.Prelude.{◌≡◌, ◌+◌, ◌≤◌, length};
ghost use Rattle.frame.specs.Hex.{unhex};
ghost use Rattle.frame.specs.Steps.{stored_at};
ghost use Rattle.front.specs.ReferenceLine.{most_line_bases, bases_of, added_bases, reference_line, reference_after};

use frame::field::{Cursor, Digits, byte_at, read_u8};
use frame::line::line_of;
use refusal::Refusal;
use unit::Unit;
use unit::kind::Kind;

// A reference line's measure.
#[derive(Clone, Copy)]
pub struct ReferenceLine {}

impl ReferenceLine {
    // The most symbol indexes of a line.
    pub const BASES: usize = 1_000;

    // The number is its name in specs/: proved, and called by nothing.
    fn tied() -> usize
        ensures { result ≡ most_line_bases }
    {
        ReferenceLine::BASES
    }
}

// The answer to n bases more, where places are lent and used of them hold a base: C lends its whole reference, and `used` beside it, with each line.
fn add_bases(n: usize, used: usize, places: usize) -> Result<usize, Refusal>
    ensures { result ≡ added_bases n used places }
{
    if n < 1 {
        return Err(Refusal::Misframed);
    }
    if ReferenceLine::BASES < n {
        return Err(Refusal::Misframed);
    }
    if places < used {
        return Err(Refusal::Misframed);
    }
    // The sum below fits only where this holds.
    if Unit::REFERENCE < used {
        return Err(Refusal::Misframed);
    }
    let all = used + n;
    if Unit::REFERENCE < all {
        return Err(Refusal::Misframed);
    }
    if places < all {
        return Err(Refusal::NoRoom);
    }
    Ok(all)
}

// The line without its bases' values.
fn read_count(line: &[u8], used: usize, places: usize) -> Result<usize, Refusal>
    ensures { result ≡ reference_line line.now used places }
{
    line_of(line)?;
    let (kind, _) = read_u8(Digits(line), Cursor { at: 0 })?;
    if kind != Kind::REFERENCE {
        return Err(Refusal::Misframed);
    }
    let n = line.len() / 2 - 1;
    add_bases(n, used, places)
}

// The line's bases, into the reference from a place on.
fn lay_bases(line: &[u8], reference: &mut [u8], used: usize)
    requires { used + length (bases_of (unhex line.now)) ≤ length reference.old }
    ensures { reference.new ≡ stored_at reference.old used (bases_of (unhex line.now)) }
{
    for i in 1..line.len() / 2 {
        reference[used + i - 1] = byte_at(Digits(line), i);
    }
}

// A reference line, lent with its 0A, where used bases stand in the reference already: how many are there now, those of earlier lines among them.
pub fn read(line: &[u8], reference: &mut [u8], used: usize) -> Result<usize, Refusal>
    ensures value { result ≡ reference_line line.now used (length reference.old) }
    ensures reference_after { reference.new ≡ reference_after line.now used reference.old }
{
    let all = read_count(line, used, reference.len())?;
    lay_bases(line, reference, used);
    Ok(all)
}
