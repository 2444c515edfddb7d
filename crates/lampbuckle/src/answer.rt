// The integer that a call answers.
ghost use Rattle.std.specs.Prelude.{◌≡◌, ◌<◌, ◌^◌, pos};
ghost use Rattle.refusal.specs.Numbers.{number_of};
ghost use Rattle.lampbuckle.specs.Answer.{minus, answer_of};
ghost use Rattle.lampbuckle.specs.Code.Countable.{Countable};

use refusal::Refusal;

// So many: of bytes, of symbols, of bases. No TryFrom: it fits by what is required, and an error would have no answer.
pub(crate) fn counted(n: usize) -> i64
    requires { n < 2 ^ 63 }
    ensures { result ≡ pos n }
{
    n as i64
}

// Minus the number of a refusal. No From: C reads the sign, and an i64 alone does not say what it is of.
pub(crate) fn refused(refusal: Refusal) -> i64
    ensures { result ≡ minus (number_of refusal) }
{
    -i64::from(u32::from(refusal))
}

// Either of the two.
pub(crate) fn answered(answer: Result<usize, Refusal>) -> i64
    requires { Countable answer }
    ensures { result ≡ answer_of answer }
{
    match answer {
        Ok(n) => counted(n),
        Err(refusal) => refused(refusal),
    }
}
