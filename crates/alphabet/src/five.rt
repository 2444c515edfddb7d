// The letters of alphabet 0 without a table, so that many are laid at once.
ghost use Rattle.std.specs.Prelude.{◌≡◌, cond, [], ◌∷◌, ◌+◌, ◌≤◌, eqb, length};
ghost use Rattle.writing.specs.Lay.{Laid};
ghost use Rattle.alphabet.specs.Table35.{letter_of};
ghost use Rattle.alphabet.specs.Code.Digits.{both_digits};

// A number where a symbol has an index, else 0: a choice without a branch.
fn pick(symbol: u8, index: u8, more: u16) -> u16
    ensures { (result ≡ cond (eqb symbol index) more 0) × (result ≤ more) }
{
    if symbol == index { more } else { 0 }
}

// Both digits of a letter of alphabet 0, the first in the low byte, as they will stand in memory: 41 43 47 54 4e, or 00 outside the alphabet.
// A choice adds what its letter's digits are more than 00, since sums of choices are what most processors do for many symbols at once.
fn digits_of(symbol: u8) -> u16
    ensures { result ≡ both_digits (letter_of 0 symbol) }
{
    let a = pick(symbol, 0, 0x0104);
    let c = pick(symbol, 1, 0x0304);
    let g = pick(symbol, 2, 0x0704);
    let t = pick(symbol, 3, 0x0405);
    let n = pick(symbol, 4, 0x3504);
    0x3030 + a + c + g + t + n
}

// A symbol's letter of alphabet 0. Not one with letter::put_letter: choices are laid many at once, and what a table says is not (docs/BENCHMARK.md).
pub fn put_five(out: &mut [u8], at: usize, symbol: u8) -> usize
    requires { at + 2 ≤ length out.old }
    ensures { Laid out.old out.new at result (letter_of 0 symbol ∷ []) }
{
    let [high, low] = digits_of(symbol).to_le_bytes();
    out[at] = high;
    out[at + 1] = low;
    at + 2
}
