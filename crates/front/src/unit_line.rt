// The unit line, read and written. Fields are read left to right and checked when they are complete, so that of two faults the first one is answered.
ghost use Rattle.std.specs.Prelude.{◌≡◌};
ghost use Rattle.frame.specs.Hex.{unhex};
ghost use Rattle.writing.specs.Whole.{wrote_of, line_into};
ghost use Rattle.front.specs.UnitLine.{unit_line_bytes, unit_line, unit_class, unit_template, unit_ends, unit_bytes};

use frame::field::{Cursor, Digits, Frame, read_u8, read_u16, read_u32};
use frame::line::line_of;
use refusal::Refusal;
use unit::Unit;
use unit::kind::Kind;
use writing::lay::write_line;

// A unit line's measure.
#[derive(Clone, Copy)]
pub struct UnitLine {}

impl UnitLine {
    // The bytes of the line.
    pub const BYTES: usize = 20;

    // The number is its name in specs/: proved, and called by nothing.
    fn tied() -> usize
        ensures { result ≡ unit_line_bytes }
    {
        UnitLine::BYTES
    }
}

// AU start and end, the record count, and nothing behind it.
fn read_ends(
    line: &[u8],
    c: Cursor,
    class: u32,
    alphabet: u32,
    segments: u32,
    sequence: u32,
    first: u32,
) -> Result<Unit, Refusal>
    ensures { result ≡ unit_ends (unhex line.now) c.at class alphabet segments sequence first }
{
    let frame = Digits(line);
    let (start, d) = read_u32(frame, c)?;
    let (end, e) = read_u32(frame, d)?;
    if end < start {
        return Err(Refusal::UnitOut);
    }
    let (records, f) = read_u16(frame, e)?;
    if Unit::RECORDS < records {
        return Err(Refusal::UnitOut);
    }
    if f.at < frame.count() {
        return Err(Refusal::Misframed);
    }
    Ok(Unit {
        class,
        alphabet,
        segments,
        sequence,
        first,
        start,
        end,
        records,
    })
}

// Template segments, sequence id and the position of the first lent reference base.
fn read_template(line: &[u8], c: Cursor, class: u32, alphabet: u32) -> Result<Unit, Refusal>
    ensures { result ≡ unit_template (unhex line.now) c.at class alphabet }
{
    let frame = Digits(line);
    let (segments, d) = read_u8(frame, c)?;
    if Unit::SEGMENTS < segments {
        return Err(Refusal::UnitOut);
    }
    if segments < Unit::least_segments(class) {
        return Err(Refusal::UnitOut);
    }
    let (sequence, e) = read_u16(frame, d)?;
    let (first, f) = read_u32(frame, e)?;
    read_ends(line, f, class, alphabet, segments, sequence, first)
}

fn read_class(line: &[u8], c: Cursor) -> Result<Unit, Refusal>
    ensures { result ≡ unit_class (unhex line.now) c.at }
{
    let frame = Digits(line);
    let (class, d) = read_u8(frame, c)?;
    if class < Unit::P {
        return Err(Refusal::UnitOut);
    }
    if Unit::U < class {
        return Err(Refusal::UnitOut);
    }
    let (alphabet, e) = read_u8(frame, d)?;
    if Unit::ALPHABETS < alphabet {
        return Err(Refusal::UnitOut);
    }
    read_template(line, e, class, alphabet)
}

// A unit line, lent with its 0A.
pub fn read(line: &[u8]) -> Result<Unit, Refusal>
    ensures { result ≡ unit_line line.now }
{
    line_of(line)?;
    let (kind, c) = read_u8(Digits(line), Cursor { at: 0 })?;
    if kind != Kind::UNIT {
        return Err(Refusal::Misframed);
    }
    read_class(line, c)
}

// Kind, class, alphabet, template segments, sequence id, position of the first lent reference base, AU start, AU end and record count.
fn bytes_of(unit: Unit) -> [u8; UnitLine::BYTES]
    ensures { result ≡ unit_bytes unit }
{
    let mut bytes = [0u8; UnitLine::BYTES];
    bytes[0] = Kind::UNIT as u8;
    bytes[1] = unit.class.to_be_bytes()[3];
    bytes[2] = unit.alphabet.to_be_bytes()[3];
    bytes[3] = unit.segments.to_be_bytes()[3];
    bytes[4..6].copy_from_slice(&unit.sequence.to_be_bytes()[2..]);
    bytes[6..10].copy_from_slice(&unit.first.to_be_bytes());
    bytes[10..14].copy_from_slice(&unit.start.to_be_bytes());
    bytes[14..18].copy_from_slice(&unit.end.to_be_bytes());
    bytes[18..].copy_from_slice(&unit.records.to_be_bytes()[2..]);
    bytes
}

// The unit line again, at the front of what is lent, or nothing.
pub fn write(out: &mut [u8], unit: Unit) -> Result<usize, Refusal>
    ensures value { result ≡ wrote_of out.old (unit_bytes unit) }
    ensures out_after { out.new ≡ line_into out.old (unit_bytes unit) }
{
    let bytes = bytes_of(unit);
    write_line(out, &bytes)
}
