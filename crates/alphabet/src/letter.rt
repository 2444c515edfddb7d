// A letter laid as digits into a lent line.
ghost use Rattle.std.specs.Prelude.{◌≡◌, ◌+◌, ◌*◌, ◌≤◌, length, get_or, set};
ghost use Rattle.alphabet.specs.Code.Digits.{place_of};

use crate::DIGITS;

// Where a symbol's letter stands in the table of digits: what is outside the alphabets shares the last place.
fn place_of(symbol: u8) -> usize
    ensures { result ≡ 2 * place_of symbol }
{
    2 * usize::from(symbol.min(16))
}

// A symbol's letter, from the table of an alphabet's digits (`laid_letter`). Both digits are read before one is stored, so that they are moved at once.
pub fn put_letter(out: &mut [u8], at: usize, table: &[u8; DIGITS], symbol: u8) -> usize
    requires { at + 2 ≤ length out.old }
    ensures value { result ≡ at + 2 }
    ensures out_after { out.new ≡ set (set out.old at (get_or table.now (2 * place_of symbol) 0)) (at + 1) (get_or table.now (2 * place_of symbol + 1) 0) }
{
    let place = place_of(symbol);
    let high = table[place];
    let low = table[place + 1];
    out[at] = high;
    out[at + 1] = low;
    at + 2
}
