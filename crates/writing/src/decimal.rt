// Numbers in base 10, by recursion on the quotient by ten. No Display: each character is laid as two digits of a lent line, and nothing has memory of its own.
ghost use Rattle.std.specs.Prelude.{◌≡◌, ◌+◌, ◌*◌, ◌≤◌, length};
ghost use Rattle.writing.specs.Lay.{Laid};
ghost use Rattle.writing.specs.Decimal.{decimal};

use crate::lay::put_byte;

// How many digits n has.
pub fn decimal_len(n: u32) -> usize
    ensures { result ≡ length (decimal n) }
{
    if n < 10 { 1 } else { decimal_len(n / 10) + 1 }
}

// The digits of n as text, no leading zero.
pub fn put_decimal(out: &mut [u8], at: usize, n: u32) -> usize
    requires { at + 2 * length (decimal n) ≤ length out.old }
    ensures { Laid out.old out.new at result (decimal n) }
{
    if n < 10 {
        return put_byte(out, at, b'0' + n as u8);
    }
    let next = put_decimal(out, at, n / 10);
    put_byte(out, next, b'0' + (n % 10) as u8)
}
