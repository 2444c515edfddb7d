// Fields of a block with the values that they may have: each is refused when it is complete.
ghost use Rattle.std.specs.Prelude.{◌≡◌, ◌≤◌, Err};
ghost use Rattle.frame.specs.Field.{after_field};
ghost use Rattle.limits.specs.Limits.{most_pieces};
ghost use Rattle.block.specs.Checked.{value_within, length_at, most_rcomp, rcomp_at, number_at, lengths_at, count_at};

use edits::Block;
use frame::field::{Cursor, read_u8, read_u16};
use limits::Limit;
use refusal::Refusal;
use unit::Unit;

// The most pieces of a read over introns.
const PIECES: u32 = Limit::PIECES as u32;

// A field whose value may be `least` to `most`.
fn limited(
    field: Result<(u32, Cursor), Refusal>,
    least: u32,
    most: u32,
    refusal: Refusal,
) -> Result<(u32, Cursor), Refusal>
    ensures { result ≡ after_field Err field (λ v next. value_within least most refusal v next.at) }
{
    let (v, next) = field?;
    if v < least || most < v {
        return Err(refusal);
    }
    Ok((v, next))
}

// Read length: 1 to the limit.
pub(crate) fn read_length(frame: &[u8], c: Cursor) -> Result<(u32, Cursor), Refusal>
    ensures { result ≡ length_at frame.now c.at }
{
    limited(read_u16(frame, c), 1, Block::READ, Refusal::LengthOut)
}

fn most_rcomp(class: u32) -> u32
    ensures { result ≡ most_rcomp class }
{
    if class < Unit::I { 1 } else { 2 }
}

// Rcomp: 0 or 1, in classes I and HM 2 as well.
pub(crate) fn read_rcomp(frame: &[u8], class: u32, c: Cursor) -> Result<(u32, Cursor), Refusal>
    ensures { result ≡ rcomp_at class frame.now c.at }
{
    limited(read_u8(frame, c), 0, most_rcomp(class), Refusal::FieldOut)
}

// The number of a read's pieces: 1 to the limit.
pub(crate) fn read_number(frame: &[u8], c: Cursor) -> Result<(u32, Cursor), Refusal>
    ensures { result ≡ number_at frame.now c.at }
{
    limited(read_u8(frame, c), 1, PIECES, Refusal::LengthOut)
}

// The lengths of so many pieces, none of them 0; refused once all are read where they do not add up to the read length.
pub(crate) fn read_lengths(
    frame: &[u8],
    length: u32,
    count: u32,
    c: Cursor,
) -> Result<(u32, Cursor), Refusal>
    requires { count ≤ most_pieces }
    ensures { result ≡ lengths_at frame.now length count c.at }
{
    let mut at = c;
    let mut sum = 0;
    for _ in 0..count {
        let (v, next) = read_u16(frame, at)?;
        if v < 1 {
            return Err(Refusal::LengthOut);
        }
        at = next;
        sum += v;
    }
    if sum != length {
        return Err(Refusal::LengthOut);
    }
    Ok((sum, at))
}

// Edit count: 0 to the limit.
pub(crate) fn read_count(frame: &[u8], c: Cursor) -> Result<(u32, Cursor), Refusal>
    ensures { result ≡ count_at frame.now c.at }
{
    limited(read_u16(frame, c), 0, Block::EDITS, Refusal::FieldOut)
}
