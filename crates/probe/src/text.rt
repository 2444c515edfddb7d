// The text layer.
ghost use Rattle.std.specs.Prelude.{◌≡◌};
ghost use Rattle.frame.specs.Hex.{unhex};
ghost use Rattle.frame.specs.Line.{line_of};
ghost use Rattle.probe.specs.Text.{frame_bytes, value_of, sum_to, count_into};

use frame::field::{Cursor, Digits, read_u16};
use frame::line::line_of;
use refusal::Refusal;

// A frame's bytes, or 0 for a malformed line.
#[unsafe(no_mangle)]
pub extern "C" fn probe_line(line: &[u8]) -> usize
    ensures { result ≡ frame_bytes (line_of line.now) }
{
    line_of(line).unwrap_or(0)
}

fn value(f: Result<(u32, Cursor), Refusal>) -> u32
    ensures { result ≡ value_of f }
{
    f.map_or(0, |(v, _)| v)
}

// The sum of a frame's first `fields` u16 fields, modulo 2^32.
#[unsafe(no_mangle)]
pub extern "C" fn probe_sum(line: &[u8], fields: u32) -> u32
    ensures { result ≡ sum_to fields (unhex line.now) }
{
    let mut sum: u32 = 0;
    for i in 0..fields {
        let at = i as usize * 2;
        let v = value(read_u16(Digits(line), Cursor { at }));
        sum = sum.wrapping_add(v);
    }
    sum
}

// The numbers from `fields` down to 1 laid as u32 fields, or nothing where there is no room for them all.
#[unsafe(no_mangle)]
pub extern "C" fn probe_lay(out: &mut [u8], fields: u32)
    ensures { out.new ≡ count_into out.old fields }
{
    if out.len() / 8 < fields as usize {
        return;
    }
    let mut at = 0;
    for left in (1..=fields).rev() {
        at = writing::lay::put_u32(out, at, left);
    }
}
