// The lines in front of the records, read into lent numbers. A line is lent with its 0A.
ghost use Rattle.std.specs.Prelude.{◌≡◌, [], ◌∷◌};
ghost use Rattle.lampbuckle.specs.Answer.{outcome};
ghost use Rattle.lampbuckle.specs.Lines.{unit_call, pair_call, reference_call};

use crate::answer::{answered, counted, refused};
use crate::numbers;
use front::{pair_line, reference_line, unit_line};
use refusal::Refusal;
use unit::Pairs;

// The unit line's eight values into the lent eight numbers. It answers the line's bytes.
#[unsafe(no_mangle)]
pub extern "C" fn lampbuckle_unit_line(line: &[u8], unit: &mut [u32]) -> i64
    ensures { outcome result (unit.new ∷ []) ≡ unit_call line.now unit.old }
{
    if unit.len() != numbers::UNIT {
        return refused(Refusal::UnitOut);
    }
    match unit_line::read(line) {
        Err(refusal) => refused(refusal),
        Ok(u) => {
            numbers::lay_unit(unit, u);
            counted(line.len())
        }
    }
}

// The line of a subsequence: its symbols into its row of the lent table, its count into the lent counts. It answers the count.
#[unsafe(no_mangle)]
pub extern "C" fn lampbuckle_pair_line(
    line: &[u8],
    subsequence: u32,
    symbols: &mut [u32],
    counts: &mut [u32],
) -> i64
    ensures { outcome result (symbols.new ∷ counts.new ∷ []) ≡ pair_call line.now subsequence symbols.old counts.old }
{
    if counts.len() != Pairs::SUBSEQUENCES {
        return refused(Refusal::CountOut);
    }
    match pair_line::read(line, subsequence, symbols) {
        Err(refusal) => refused(refusal),
        Ok(n) => {
            counts[subsequence as usize] = n;
            counted(n as usize)
        }
    }
}

// A reference line behind the bases that are used already. It answers how many bases are there now.
#[unsafe(no_mangle)]
pub extern "C" fn lampbuckle_reference_line(line: &[u8], reference: &mut [u8], used: usize) -> i64
    ensures { outcome result (reference.new ∷ []) ≡ reference_call line.now reference.old used }
{
    answered(reference_line::read(line, reference, used))
}
