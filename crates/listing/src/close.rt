// The last line of a listing, and the only one of a refused resume.
ghost use Rattle.std.specs.Prelude.{◌≡◌, [], ◌∷◌};
ghost use Rattle.writing.specs.Whole.{wrote_of, line_into};
ghost use Rattle.listing.specs.Listing.{frame05, frame06};
ghost use Rattle.listing.specs.Resuming.{bytes05, bytes06, no_record};

use refusal::Refusal;
use unit::kind::Kind;
use writing::lay::write_line;

// The record number of a refused resume.
pub const NO_RECORD: u32 = 65_535;

// The bytes of an 05 and of an 06 line.
pub const BYTES_05: usize = 4;

pub const BYTES_06: usize = 3;

// Each number is its name in specs/: proved, and called by nothing.
fn tied() -> [usize; 2]
    ensures { result ≡ bytes05 ∷ bytes06 ∷ [] }
{
    [BYTES_05, BYTES_06]
}

fn tied_number() -> u32
    ensures { result ≡ no_record }
{
    NO_RECORD
}

// The C interface has a call for each of the two lines; what is alike in them is `write_line`.
// The low two bytes of the record number, and the low byte of the refusal number.
fn bytes_05(number: u32, refusal: u32) -> [u8; BYTES_05]
    ensures { result ≡ frame05 number refusal }
{
    let [_, _, high, low] = number.to_be_bytes();
    [Kind::REFUSED as u8, high, low, refusal.to_be_bytes()[3]]
}

// The low two bytes of the record count.
fn bytes_06(count: u32) -> [u8; BYTES_06]
    ensures { result ≡ frame06 count }
{
    let [_, _, high, low] = count.to_be_bytes();
    [Kind::DONE as u8, high, low]
}

// An 05 line.
pub fn write_refused(out: &mut [u8], number: u32, refusal: u32) -> Result<usize, Refusal>
    ensures value { result ≡ wrote_of out.old (frame05 number refusal) }
    ensures out_after { out.new ≡ line_into out.old (frame05 number refusal) }
{
    let bytes = bytes_05(number, refusal);
    write_line(out, &bytes)
}

// An 06 line.
pub fn write_done(out: &mut [u8], count: u32) -> Result<usize, Refusal>
    ensures value { result ≡ wrote_of out.old (frame06 count) }
    ensures out_after { out.new ≡ line_into out.old (frame06 count) }
{
    let bytes = bytes_06(count);
    write_line(out, &bytes)
}
