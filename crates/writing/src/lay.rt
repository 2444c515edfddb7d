// Bytes laid as digits into a lent line. A writer answers the place behind what it laid, so that the next one goes on there.
ghost use Rattle.std.specs.Prelude.{◌≡◌, [], ◌∷◌, ◌+◌, ◌*◌, ◌<◌, ◌≤◌, length};
ghost use Rattle.frame.specs.Hex.{glyph, be};
ghost use Rattle.writing.specs.Lay.{Laid};
ghost use Rattle.writing.specs.Whole.{wrote_of, line_into};

use frame::line::Line;
use refusal::Refusal;

// No `from_digit`: it answers an Option of a char.
fn digit_of(n: u8) -> u8
    requires { n < 16 }
    ensures { result ≡ glyph n }
{
    if n < 10 { b'0' + n } else { b'a' + (n - 10) }
}

pub fn put_byte(out: &mut [u8], at: usize, b: u8) -> usize
    requires { at + 2 ≤ length out.old }
    ensures { Laid out.old out.new at result (b ∷ []) }
{
    out[at] = digit_of(b / 16);
    out[at + 1] = digit_of(b % 16);
    at + 2
}

// The low byte of a number. The two below are each the one before, twice; one function of k bytes would be a loop with a power of 256, which is no plainer.
pub fn put_u8(out: &mut [u8], at: usize, v: u32) -> usize
    requires { at + 2 ≤ length out.old }
    ensures { Laid out.old out.new at result (be 1 v) }
{
    put_byte(out, at, v.to_be_bytes()[3])
}

// The low two bytes of a number.
pub fn put_u16(out: &mut [u8], at: usize, v: u32) -> usize
    requires { at + 4 ≤ length out.old }
    ensures { Laid out.old out.new at result (be 2 v) }
{
    let next = put_u8(out, at, v / 256);
    put_u8(out, next, v)
}

pub fn put_u32(out: &mut [u8], at: usize, v: u32) -> usize
    requires { at + 8 ≤ length out.old }
    ensures { Laid out.old out.new at result (be 4 v) }
{
    let next = put_u16(out, at, v / 65536);
    put_u16(out, next, v)
}

// A run of bytes.
pub fn put_bytes(out: &mut [u8], at: usize, bytes: &[u8]) -> usize
    requires { at + 2 * length bytes.now ≤ length out.old }
    ensures { Laid out.old out.new at result bytes.now }
{
    let mut next = at;
    for &b in bytes {
        next = put_byte(out, next, b);
    }
    next
}

// A whole line at the front of what is lent: its bytes, its 0A among them; 17, and nothing is laid, where there is too little room.
pub fn write_line(out: &mut [u8], bytes: &[u8]) -> Result<usize, Refusal>
    ensures value { result ≡ wrote_of out.old bytes.now }
    ensures out_after { out.new ≡ line_into out.old bytes.now }
{
    let half = out.len() / 2;
    if half < bytes.len() {
        return Err(Refusal::NoRoom);
    }
    let digits = 2 * bytes.len();
    if out.len() == digits {
        return Err(Refusal::NoRoom);
    }
    let end = put_bytes(out, 0, bytes);
    out[end] = Line::END;
    Ok(end + 1)
}
