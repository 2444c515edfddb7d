// Fields of a frame, read from its bytes or straight from the line's digits. Numbers are unsigned, high byte first.
ghost use Rattle.std.specs.Prelude.{◌≡◌, ◌≤◌, ◌<◌, ◌^◌, List, ℕ, length, get_or};
ghost use Rattle.frame.specs.Hex.{nib, unhex};
ghost use Rattle.frame.specs.Field.{big_at, field_at};
ghost use Rattle.frame.specs.Code.Narrow.{Narrow};

use refusal::Refusal;

// A place of the frame: how many of its bytes are read.
#[derive(Clone, Copy)]
pub struct Cursor {
    pub at: usize,
}

// The value of a digit: its low four bits, and 9 more for a letter. No test, so no branch that is guessed wrong; `to_digit` has one, and takes a char.
pub(crate) fn nibble(d: u8) -> u8
    ensures { result ≡ nib d }
{
    (d % 16 + d / 64 * 9) % 16
}

// A frame, as its bytes stand somewhere: decoded, or as the digits of its line.
pub trait Frame {
    ghost bytes: { Self → List ℕ };

    // How many bytes there are.
    fn count(&self) -> usize
        ensures { result ≡ length (bytes self.now) };

    fn byte(&self, i: usize) -> u8
        requires { i < length (bytes self.now) }
        ensures { result ≡ get_or (bytes self.now) i 0 };
}

// A frame that is decoded.
impl<'a> Frame for &'a [u8] {
    ghost bytes = { λ frame. frame.now };

    fn count(&self) -> usize {
        self.len()
    }

    fn byte(&self, i: usize) -> u8 {
        self[i]
    }
}

// A line as its frame: what its digits stand for.
#[derive(Clone, Copy)]
pub struct Digits<'a>(pub &'a [u8]);

impl<'a> Frame for Digits<'a> {
    ghost bytes = { λ line. unhex line.0.now };

    fn count(&self) -> usize {
        self.0.len() / 2
    }

    fn byte(&self, i: usize) -> u8 {
        let a = i * 2;
        nibble(self.0[a]) * 16 + nibble(self.0[a + 1])
    }
}

// The i-th byte of a frame; 0 past its end.
pub fn byte_at<F: Frame + Copy>(frame: F, i: usize) -> u8
    ensures { result ≡ get_or (F.bytes frame) i 0 }
{
    if i < frame.count() { frame.byte(i) } else { 0 }
}

// The two bytes from a place on as a number; what is past the frame's end counts as 0.
pub fn word_at<F: Frame + Copy>(frame: F, at: usize) -> u32
    ensures { (result ≡ big_at 2 (F.bytes frame) at) × (result < 2 ^ 16) }
{
    if frame.count() <= at {
        return 0;
    }
    u32::from(byte_at(frame, at)) * 256 + u32::from(byte_at(frame, at + 1))
}

// A field of k bytes and the place behind it, or a frame that ends before it is complete: the readers below are this at one width each, which is why no `from_be_bytes` stands here: it has one width.
fn read_wide<F: Frame + Copy>(frame: F, c: Cursor, k: usize) -> Result<(u32, Cursor), Refusal>
    requires { k ≤ 4 }
    ensures { (result ≡ field_at k (F.bytes frame) c.at) × Narrow k result }
{
    let at = c.at;
    let n = frame.count();
    if n < k {
        return Err(Refusal::Misframed);
    }
    if n - k < at {
        return Err(Refusal::Misframed);
    }
    let mut v: u32 = 0;
    for j in 0..k {
        v = v * 256 + u32::from(frame.byte(at + j));
    }
    Ok((v, Cursor { at: at + k }))
}

pub fn read_u8<F: Frame + Copy>(frame: F, c: Cursor) -> Result<(u32, Cursor), Refusal>
    ensures { result ≡ field_at 1 (F.bytes frame) c.at }
{
    read_wide(frame, c, 1)
}

pub fn read_u16<F: Frame + Copy>(frame: F, c: Cursor) -> Result<(u32, Cursor), Refusal>
    ensures { (result ≡ field_at 2 (F.bytes frame) c.at) × Narrow 2 result }
{
    read_wide(frame, c, 2)
}

pub fn read_u32<F: Frame + Copy>(frame: F, c: Cursor) -> Result<(u32, Cursor), Refusal>
    ensures { result ≡ field_at 4 (F.bytes frame) c.at }
{
    read_wide(frame, c, 4)
}
