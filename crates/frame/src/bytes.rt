// A frame as its bytes: decoded from the line's digits once.
ghost use Rattle.std.specs.Prelude.{◌≡◌, length, take};
ghost use Rattle.frame.specs.Hex.{unhex};
ghost use Rattle.frame.specs.Steps.{stored_at};

use crate::field::nibble;

// The bytes that a line's digits stand for, laid from the front of a frame on: all of them, or as many as there is room for.
pub fn decode(frame: &mut [u8], line: &[u8])
    ensures { frame.new ≡ stored_at frame.old 0 (take (length frame.old) (unhex line.now)) }
{
    let n = frame.len().min(line.len() / 2);
    for i in 0..n {
        let at = 2 * i;
        frame[i] = nibble(line[at]) * 16 + nibble(line[at + 1]);
    }
}
