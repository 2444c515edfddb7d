// The two alphabets of Table 35: the letter of an index, as its digits.
#![tactic(auto)]

pub mod five;
pub mod letter;

ghost use Rattle.std.specs.Prelude.{◌≡◌};
ghost use Rattle.alphabet.specs.Table35.{size_of, code_of_n};
ghost use Rattle.alphabet.specs.Code.Digits.{table_digits, digits_of};

// The digits of a table: two a letter, from index 0 to index 16, which is outside both alphabets.
pub const DIGITS: usize = 34;

// It is its name in specs/: proved, and called by nothing.
fn tied() -> usize
    ensures { result ≡ table_digits }
{
    DIGITS
}

// The letters of alphabet 0 as digits, and those of alphabet 1; 00 for an index outside the alphabet.
const FIVE_DIGITS: [u8; DIGITS] = *b"414347544e000000000000000000000000";

const SIXTEEN_DIGITS: [u8; DIGITS] = *b"41434754525953574b4d424448564e2d00";

// How many symbols an alphabet has: an index is below this. Here, in `digits`, `index_of_n` and `put_letters` of bases any number but 0 is alphabet 1 (specs/): no enum says that.
pub fn size(alphabet: u32) -> u32
    ensures { result ≡ size_of alphabet }
{
    if alphabet == 0 { 5 } else { 16 }
}

// The digits of each letter, for a writer of many: it takes them once, and a letter is then two places of the table.
pub fn digits(alphabet: u32) -> [u8; DIGITS]
    ensures { result ≡ digits_of alphabet }
{
    if alphabet == 0 {
        FIVE_DIGITS
    } else {
        SIXTEEN_DIGITS
    }
}

// The index of the letter N.
pub fn index_of_n(alphabet: u32) -> u32
    ensures { result ≡ code_of_n alphabet }
{
    if alphabet == 0 { 4 } else { 14 }
}
